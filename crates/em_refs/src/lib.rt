//! References in a text of make.
#![tactic(auto)]

pub mod laws;
mod no;
mod part;
mod read;

pub use no::RefNo;
pub use part::{Bracket, Part, Parted};
pub use read::{parts, parts_before};

#[cfg(test)]
mod tests;
