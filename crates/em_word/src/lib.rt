//! The expansion of the shell's words.
#![tactic(auto)]

mod expander;
mod fault;
pub mod laws;
mod names;
mod passing;
mod plain;
mod shell;
mod step;
mod turn;

pub use expander::Expander;
pub use fault::WordFault;
pub use plain::literal;
pub use shell::Shell;
pub use turn::{Mode, WordTurn};
