//! Reading makefiles.
#![tactic(auto)]

mod act;
mod files;
mod goal;
mod hear;
pub mod laws;
mod makefiles;
mod read;

pub use em_reading::{MakefileFault, Missing, ReadNo, RuleNo};
pub use makefiles::{Round, read_makefiles, read_round, read_through};
