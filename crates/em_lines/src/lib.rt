//! The logical lines of a makefile.
#![tactic(auto)]

mod comment;
mod fold;
mod joining;
pub mod laws;
mod line;
mod no;
mod read;

pub use comment::{add_reference, bare, comment_start};
pub use fold::folded_references;
pub use line::{Line, Lines};
pub use no::LinesNo;
pub use read::{joined, logical, logical_before};

#[cfg(test)]
mod tests;
