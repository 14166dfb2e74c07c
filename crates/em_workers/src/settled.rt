//! What was settled of a job.
use em_tree::{Delta, Outcome};

/// What was settled of a job.
#[derive(Drop, PartialEq, Eq)]
pub struct Settled {
    pub job: u32,
    pub delta: Delta,
    pub outcome: Outcome,
}
