//! The tokens of a line.
ghost use Rattle.std.specs.Prelude.{◌≡◌, ◌⊎◌, Ok, Err, IfOk, IfErr};
ghost use Rattle.em_lex.specs.Tokens.{tokens_of};

use crate::read::lexemes;
use em_lexeme::token::tokens_in;
use em_lexeme::{LexNo, Lexed, Token};
use std::alloc::Global;

/// The tokens of the line: whole words, and the operators, newlines and numbers of descriptors
/// outside of them, in order. `Unclosed` and `Refused` come exactly where the line has a fault, and
/// tell the leftmost one. Steps for each byte, and for those between backquotes once more for each
/// level of them.
#[tactic(auto, unfolding(crate::specs::Tokens::tokens_of))]
pub fn tokens(alloc: Global, line: &[u8]) -> Result<Vec<Token>, LexNo>
    ensures ok { IfOk result (λ v. tokens_of line.now ≡ Ok v.items) }
    ensures err { IfErr result (λ e. (e ≡ LexNo.NoMemory) ⊎ (tokens_of line.now ≡ Err e)) }
{
    let Lexed { items, stop } = lexemes(alloc, line)?;
    match stop {
        Some(fault) => Err(fault),
        None => Ok(tokens_in(alloc, items.items())?),
    }
}
