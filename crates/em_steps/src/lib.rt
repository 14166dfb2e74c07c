//! A job that pauses at each line that begins a make within a make.
#![tactic(auto)]

mod laps;
mod steps;

pub use steps::JobSteps;
