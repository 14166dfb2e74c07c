//! Statements of a makefile: what a logical line is.
#![tactic(auto)]

mod assignment;
mod condition;
mod directive;
mod head;
mod keyword;
pub mod laws;
mod line;
mod refusal;
mod shape;
mod split;
mod statement;

pub use assignment::{Assignment, Modifiers, Operator};
pub use condition::{Condition, Sides};
pub use head::{Head, read_head, words};
pub use line::read_statement;
pub use refusal::{refused_in_head, refused_in_read};
pub use shape::colons_in;
pub use split::{first_word, is_empty};
pub use statement::{Include, RuleLine, Statement, Undefine};
