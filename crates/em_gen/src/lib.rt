//! A project to measure builds with.
#![tactic(auto)]

mod makefile;
mod tree;

pub use tree::project;
