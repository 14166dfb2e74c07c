//! What one job has posted.
use em_tree::{Delta, Outcome};

/// What a job has posted: its changes, and how it ended.
#[derive(Drop)]
pub struct Post {
    pub delta: Delta,
    pub outcome: Outcome,
}
