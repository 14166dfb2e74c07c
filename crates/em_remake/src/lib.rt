//! Makefiles that are remade: which of them are goals before all others, and whether one of them
//! has changed.
#![tactic(auto)]

mod candidates;
mod goals;
pub mod laws;
mod once;
mod stamps;

pub use goals::goals_of;
pub use stamps::changed;
