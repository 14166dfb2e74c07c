//! The variables of makefiles.
#![tactic(auto)]

pub mod laws;
mod var;
mod vars;

pub use var::{Flavour, Origin, Var};
pub use vars::Vars;

#[cfg(test)]
mod tests;
