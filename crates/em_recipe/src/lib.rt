//! A recipe, without running it: the marks of its lines, the lines for the shell that come of them,
//! the automatic variables, and what is said of a job.
#![tactic(auto)]

mod automatic;
mod command;
pub mod laws;
mod mark;
mod message;

pub use automatic::automatic_vars;
pub use command::{RecipeCommand, commands};
pub use mark::{Marks, bare, marks_of};
pub use message::{
    fault_text, put_deleted, put_failed, put_halted, put_ignored, put_no_rule, put_quoted,
    put_refused, put_spent, put_spent_early,
};
