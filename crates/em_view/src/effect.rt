//! What a job makes of a state.

use em_base::Text;
use em_tree::{Delta, Outcome};

/// What a job changes, what it says, and how it ends.
#[derive(Drop)]
pub struct Effect {
    pub changes: Delta,
    pub output: Text,
    pub outcome: Outcome,
}
