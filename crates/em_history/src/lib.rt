//! What builds have shown to depend on what: pairs of names, their text, and names that can stand
//! in it.
#![tactic(auto)]

mod history;
pub mod laws;
mod name;
mod pair;
mod text;

pub use history::History;
pub use name::is_name;
