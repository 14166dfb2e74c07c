//! Pathname expansion: the names in a tree that match a pattern, asked of a desk.
#![tactic(auto)]

mod found;
mod names;
mod walk;

pub use walk::matching_names;
