//! Laws of what the program does: what the headline comes to for a user's files.
#![tactic(auto)]

pub mod laws;
