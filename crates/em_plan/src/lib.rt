//! The plan of a build: the jobs that the goals need, in serial order.
#![tactic(auto)]

mod goals;
mod job;
pub mod laws;
mod making;
mod marks;
mod members;
mod needs;
mod no;
mod numbers;
mod planned;
mod planning;
mod shared;
mod walk;

pub use goals::goal_names;
pub use making::{Making, Need};
pub use no::PlanNo;
pub use numbers::Numbers;
pub use planned::{Plan, PlanJob, Pre};
pub use planning::{plan, plan_through};
pub use shared::SharedJob;
