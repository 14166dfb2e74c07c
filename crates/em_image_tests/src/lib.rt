//! Tests of trees and of their text.
#![tactic(auto)]

#[cfg(test)]
mod image;
#[cfg(test)]
mod tree;
