//! Grammars as data: what they mean, the first fault of a text, and the machine that reads by them.
//! There is no code here: what stands in `specs/` is the theory that parsers cite, and in `proofs/`
//! is its theorem.
#![tactic(auto)]

/// How many compound commands and substitutions may be open at once.
pub const LEVELS: u32 = 64;
