//! A build by threads: workers run jobs ahead, and a committer checks each run in order and commits
//! it, or runs the job again.
#![tactic(auto)]

mod builder;
mod commit;
mod counted;
mod gate;
mod helping;
mod laws;
mod lender;
mod next;
mod no;
mod pace;
mod phases;
mod printing;
mod settled;
mod worker;

pub use builder::{Built, build};
pub use commit::commit_all;
pub use gate::{Gate, OpenGate};
pub use laws::law_notes;
pub use lender::{Lender, ScriptLender, SharedLender};
pub use next::{Committed, rerun, turn};
pub use no::BuildNo;
pub use settled::Settled;
pub use worker::work;
