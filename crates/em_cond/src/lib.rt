//! Conditionals of a makefile that are open.
#![tactic(auto)]

pub mod laws;
mod nest;
mod no;

pub use nest::{Branch, Conditional, Nest};
pub use no::CondNo;
