//! Trees of files, directories and symbolic links.
#![tactic(auto)]

mod delta;
mod index;
pub mod laws;
mod lay;
mod link;
mod map;
mod names;
mod node;
mod outcome;
mod question;
mod state;
mod tree;
mod usage;
mod way;

pub use delta::Delta;
pub use link::LinkText;
pub use names::NameList;
pub use node::{Body, Kind, Node};
pub use outcome::{Outcome, Outcomes};
pub use question::{Answer, Entry, Question};
pub use state::State;
pub use tree::Tree;
pub use usage::{Clear, Look, Usage, add_entry, path_in};
pub use way::{LEVELS, Led, MOST, Met, Way, dir_of, onward};
