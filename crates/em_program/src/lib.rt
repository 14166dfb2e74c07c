//! The whole program over a host: from its words to its exit status.
#![tactic(auto)]

mod build;
mod count;
mod ending;
mod explain;
mod messages;
mod project;
mod rounds;
mod say;
mod site;
mod status;
mod stop;
mod top;
mod verdict;
mod words;

pub use top::{Ended, emake, law_alone, law_history, law_one_build, program};
