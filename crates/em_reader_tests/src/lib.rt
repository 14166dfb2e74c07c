//! Tests of reading makefiles.
#![tactic(auto)]

#[cfg(test)]
mod reader;
#[cfg(test)]
mod reading;
