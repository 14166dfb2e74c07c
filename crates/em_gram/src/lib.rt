//! The syntax tree of a recipe line in a subset of the POSIX shell, and its parser.
#![tactic(auto)]

pub mod laws;
mod nest;
mod no;
mod parse_line;
mod parser;
mod piece;

pub use em_syntax::{
    AndOr, Assigned, Branch, Case, Command, Compound, For, If, Item, Joined, Loop, Pipeline,
    Redirect, RedirectKind, Script, Simple, Value, Word, WordPiece, WordWhat,
};
pub use no::GramNo;
pub use parse_line::parse;
