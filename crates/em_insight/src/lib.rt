//! What the report of a build says of its speed: its critical path, and how long it takes with so
//! many agents.
#![tactic(auto)]

mod check;
mod data;
mod dispatch;
mod heaviest;
pub mod laws;
mod lead;
mod listing;
mod no;
mod queue;
mod sum;
mod telling;

pub use data::{Chain, Schedule, Slot};
pub use heaviest::longest;
pub use listing::schedule;
pub use no::InsightNo;
pub use sum::total;
pub use telling::explanation;
