//! The tests of what jobs have posted, and of the board with its front.
#![tactic(auto)]

#[cfg(test)]
mod chain;
#[cfg(test)]
mod common;
#[cfg(test)]
mod engine;
