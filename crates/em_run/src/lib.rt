//! What a job is asked to do, what was recorded of its run, and who runs it.
#![tactic(auto)]

mod laws;
mod run;
mod spec;
mod work;

pub use laws::law_one_run;
pub use run::{Parts, Run};
pub use spec::Spec;
pub use work::Work;

#[cfg(test)]
mod tests;
