//! What a recipe line of the shell consists of: its lexemes and tokens, and the decisions with
//! which they are read: on bytes, on what is open, and on where commands begin.
#![tactic(auto)]

pub mod bytes;
pub mod fault;
pub mod frame;
mod lexeme;
mod no;
pub mod operator;
pub mod place;
pub mod spot;
pub mod token;
pub mod word;

pub use lexeme::{Lexed, Lexeme, Start, Token, TokenKind, What};
pub use no::LexNo;
