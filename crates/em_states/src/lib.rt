//! What the tests of makefiles, of recipes and of the shell share: small trees, the states over
//! them, and texts of what was found.
#![tactic(auto)]

mod texts;
mod trees;

pub use texts::{put_all, put_part};
pub use trees::{add, file, path, state, states};
