//! Patterns of names: `*`, `?` and `[set]` of the shell and of `wildcard`.
#![tactic(auto)]

mod glyph;
pub mod laws;
mod pattern;
mod piece;

pub use glyph::Glyph;
pub use pattern::{is_pattern, matches};

#[cfg(test)]
mod tests;
