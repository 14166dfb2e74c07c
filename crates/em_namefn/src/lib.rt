//! Make's functions on file names, and `wildcard`.
#![tactic(auto)]

mod function;
pub mod laws;
mod list;
mod name;
mod wild;

pub use function::name_function;
pub use wild::{glyphs_of, wildcard};
