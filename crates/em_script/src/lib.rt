//! A line for the shell: its text is read, and then it runs.
#![tactic(auto)]

pub mod laws;
mod line;

pub use line::ShellLine;
