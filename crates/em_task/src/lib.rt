//! One job as data.
#![tactic(auto)]

mod handed;
mod job;
mod pairs;
mod shared;

pub use handed::{is_handed, is_of_order};
pub use job::{Flags, Job};
pub use pairs::SharedPairs;
pub use shared::SharedVars;
