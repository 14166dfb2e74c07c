//! What every other crate speaks of: byte texts, sequences, stacks and tables, places in a file,
//! fuel, and want of memory.
#![tactic(auto)]

mod blanks;
mod construct;
mod fuel;
pub mod laws;
mod memory;
mod numbers;
mod place;
mod seq;
mod stack;
mod table;
mod text;
mod try_clone;

pub use blanks::{is_blank, trim, trim_end, trim_start};
pub use construct::Construct;
pub use fuel::{Fuel, Spent};
pub use memory::NoMemory;
pub use numbers::number;
pub use place::{Place, Span};
pub use seq::Seq;
pub use stack::Stack;
pub use table::Table;
pub use text::Text;
pub use try_clone::TryClone;

#[cfg(test)]
mod tests;
