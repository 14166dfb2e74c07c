//! What jobs have posted, and what a job is answered under the posts of the jobs before it.
#![tactic(auto)]

mod chain;
mod index;
mod lines;
mod marks;
mod names;
mod post;
mod versions;

pub use chain::{Chain, Steps};
pub use post::Post;
pub use versions::Versions;
