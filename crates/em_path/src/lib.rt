//! Paths: normal names of places in a tree.
#![tactic(auto)]

pub mod laws;
mod name;
mod order;
mod path;
mod read;

pub use name::is_component;
pub use path::{Path, PathNo};

#[cfg(test)]
mod tests;
