//! The board on which jobs are claimed, ask, and are settled, with its journal; and the front,
//! which stands where the serial run stands.
#![tactic(auto)]

mod board;
mod changed;
mod event;
mod flags;
mod front;
mod laws;
mod note;
mod ready;

pub use board::Board;
pub use event::{Event, Phase, Taken};
pub use front::Front;
pub use laws::{law_answered, law_claimed_once, law_settled_in_order};
pub use note::{Cause, Note, Verdict};
pub use ready::{Claim, JobStage};
