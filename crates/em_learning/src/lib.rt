//! What builds learn and tell: the waits that a history adds to a plan, the pairs that a build has
//! shown, and its report.
#![tactic(auto)]

pub mod laws;
mod pairs;
mod telling;
mod waits;

pub use pairs::learnt;
pub use telling::report_of;
pub use waits::waits_with;
