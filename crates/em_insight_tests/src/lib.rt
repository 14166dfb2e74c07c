//! The tests of what a report says of a build's speed.
#![tactic(auto)]

#[cfg(test)]
mod insight;
