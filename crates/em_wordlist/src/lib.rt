//! Words of a text, and patterns with a stem.
#![tactic(auto)]

pub mod laws;
mod pattern;
mod word;

pub use pattern::{fill, replace, stem};
pub use word::{join, join_texts, texts, words};

#[cfg(test)]
mod tests;
