//! What the tests of boards, committers and builds share: a small job, plans of it, who counts
//! runs, and what is compared as texts.
#![tactic(auto)]

mod counting;
mod links;
mod plans;
mod shows;

pub use counting::Counter;
pub use links::{Link, Linker, root};
pub use plans::{
    LinkPlan, THREE, are_lower, are_numbered, front_from, front_of, links_of, path_of, run_at_root,
    run_of, shared_from, shared_of, waits_of,
};
pub use shows::{show_answer, show_bytes, show_note, show_notes, show_outcome, show_path};
