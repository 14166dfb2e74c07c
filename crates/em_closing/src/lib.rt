//! What is said of a build as a whole: of its goals at the end, and why there is none.
#![tactic(auto)]

mod closing;
mod goals;
mod lines;
mod refusals;

pub use closing::{closing_text, has_faulty, has_made};
pub use goals::{Goal, goals_of};
pub use refusals::{dir_line, fault_line, plan_line, stopped, word_line};
