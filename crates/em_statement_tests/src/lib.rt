//! Tests of statements.
#![tactic(auto)]

#[cfg(test)]
mod statement;
