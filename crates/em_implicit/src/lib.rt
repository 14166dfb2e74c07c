//! Implicit rules: the pattern rule by which a target is remade that has no recipe of its own.
#![tactic(auto)]

mod applying;
mod candidates;
pub mod laws;
mod made;
mod pattern;
mod seek;
mod there;

pub use made::{Prerequisites, members_of, prerequisites_of};
pub use pattern::{Match, match_at};
pub use seek::{Found, find, find_by, find_through};
pub use there::{OnTree, There};
