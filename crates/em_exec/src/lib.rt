//! Scripts in a subset of the POSIX shell, run over a desk.
#![tactic(auto)]

mod enter;
mod expand;
mod form;
pub mod laws;
mod literals;
mod loops;
mod parts;
mod run;
mod script;
mod sub;
mod turn;

pub use script::exec;
pub use sub::{SubWords, sub_words};
pub use turn::{SubLine, Turn};
