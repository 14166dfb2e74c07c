//! The text of a tree: reading it, with the first fault and its place, and writing it.
#![tactic(auto)]

mod cursor;
mod header;
mod law;
mod lines;
mod no;
mod numbers;
mod parts;
mod reading;
mod writing;

pub use law::{faults_have_places, faults_stay, one_tree_of_a_text};
pub use no::{ImageNo, Which};
pub use reading::{read_image, read_text};
pub use writing::write_image;
