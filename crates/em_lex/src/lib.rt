//! The tokens of a recipe line in a subset of the POSIX shell.
#![tactic(auto)]

mod bracket;
mod dollar;
mod head;
pub mod laws;
mod mode;
mod outer;
mod quote;
mod read;
mod state;
mod steps;
mod value;

pub use em_lexeme::{LexNo, Lexed, Lexeme, Start, Token, TokenKind, What};
pub use outer::tokens;
pub use read::lexemes;
