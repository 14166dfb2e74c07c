//! The tokens of which lexemes are.
ghost use Rattle.std.specs.Prelude.{◌≡◌, ◌<◌, ◌^◌, IfOk, option_to_list};
ghost use Rattle.em_lexeme.specs.Kinds as kinds;
ghost use Rattle.em_lexeme.specs.Outer as outer;

use crate::lexeme::{Lexeme, Token, TokenKind, What};
use em_base::{NoMemory, Span};
use std::alloc::Global;

/// What a lexeme that stands outside of all words is as a token.
fn kind_of(what: &What) -> TokenKind
    ensures { result ≡ kinds.kind_of what.now }
{
    match what {
        What::Newline => TokenKind::Newline,
        What::Number(_) => TokenKind::Number,
        _ => TokenKind::Operator,
    }
}

/// The token that a lexeme ends or is, where so many words are open before it and the outermost
/// began at `from`.
fn token_at(lexeme: &Lexeme, deep: usize, from: usize) -> Option<Token>
    ensures { option_to_list result ≡ outer.token_at lexeme.now.what deep from lexeme.now }
{
    match lexeme.what {
        What::WordStart(_) => None,
        What::WordEnd => {
            let start = from;
            let end = lexeme.span.end;
            if deep != 1 {
                return None;
            }
            Some(Token {
                span: Span { start, end },
                kind: TokenKind::Word,
            })
        }
        _ => {
            if deep != 0 {
                return None;
            }
            Some(Token {
                span: lexeme.span,
                kind: kind_of(&lexeme.what),
            })
        }
    }
}

/// How many words are open behind a lexeme.
fn open_behind(what: &What, deep: usize) -> usize
    requires { deep < 2 ^ 63 }
    ensures { result ≡ outer.open_behind what.now deep }
{
    match what {
        What::WordStart(_) => deep + 1,
        What::WordEnd => deep.saturating_sub(1),
        _ => deep,
    }
}

/// Where the outermost word began, behind a lexeme.
fn began(lexeme: &Lexeme, deep: usize, from: usize) -> usize
    ensures { result ≡ outer.began lexeme.now.what deep lexeme.now.span.start from }
{
    match lexeme.what {
        What::WordStart(_) => if deep == 0 { lexeme.span.start } else { from },
        _ => from,
    }
}

/// The tokens of which the lexemes are.
pub fn tokens_in(alloc: Global, items: &[Lexeme]) -> Result<Vec<Token>, NoMemory>
    ensures { IfOk result (λ v. v.items ≡ outer.tokens_from 0 0 items.now) }
{
    let mut tokens = Vec::new(alloc);
    let mut deep: usize = 0;
    let mut from: usize = 0;
    for lexeme in items {
        if let Some(token) = token_at(lexeme, deep, from) {
            tokens.push(token)?;
        }
        from = began(lexeme, deep, from);
        deep = open_behind(&lexeme.what, deep);
    }
    Ok(tokens)
}
