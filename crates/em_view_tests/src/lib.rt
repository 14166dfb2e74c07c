//! The tests of desks.
#![tactic(auto)]

#[cfg(test)]
mod common;
#[cfg(test)]
mod view;
