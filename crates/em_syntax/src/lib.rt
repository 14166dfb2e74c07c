//! The syntax tree of a recipe line in a subset of the POSIX shell.
#![tactic(auto)]

pub mod laws;
mod script;
mod texts;
mod tree;

pub use texts::texts_of;
pub use tree::{
    AndOr, Assigned, Branch, Case, Command, Compound, For, If, Item, Joined, Loop, Pipeline,
    Redirect, RedirectKind, Script, Simple, Value, Word, WordPiece, WordWhat,
};
