//! The tests of a recipe line's tokens and of its syntax tree.
#![tactic(auto)]

#[cfg(test)]
mod gram;
#[cfg(test)]
mod lex;
#[cfg(test)]
mod names;
