//! Laws: what a job comes to with makes within it.
#![tactic(auto)]

pub mod jobs;
