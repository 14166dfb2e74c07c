//! Operators.
ghost use Rattle.std.specs.Prelude.{◌≡◌, ◌-◌, length, slice_get};
ghost use Rattle.em_lexeme.specs.Operators as operators;

use crate::lexeme::{Lexeme, What};
use em_base::Construct;

/// The operator of these two bytes.
pub fn pair(first: u8, second: u8) -> Option<What>
    ensures { result ≡ operators.pair first second }
{
    if first == b';' && second == b';' {
        Some(What::CaseEnd)
    } else if first == b'&' && second == b'&' {
        Some(What::AndIf)
    } else if first == b'|' && second == b'|' {
        Some(What::OrIf)
    } else if first == b'>' && second == b'>' {
        Some(What::DoubleGreat)
    } else if first == b'>' && second == b'&' {
        Some(What::GreatAnd)
    } else {
        None
    }
}

/// What these two bytes are refused as.
pub fn refused_pair(first: u8, second: u8) -> Option<Construct>
    ensures { result ≡ operators.refused_pair first second }
{
    let reads = first == b'<' && (second == b'&' || second == b'>');
    if first == b'<' && second == b'<' {
        Some(Construct::HereDocument)
    } else if reads || first == b'>' && second == b'|' {
        Some(Construct::Redirection)
    } else {
        None
    }
}

/// The operator of this one byte.
pub fn single(byte: u8) -> What
    ensures { result ≡ operators.single byte }
{
    if byte == b';' {
        What::Semicolon
    } else if byte == b'&' {
        What::Ampersand
    } else if byte == b'|' {
        What::Pipe
    } else if byte == b'<' {
        What::Less
    } else {
        What::Great
    }
}

/// Where the last lexeme is a descriptor 0.
pub fn zero_before(items: &[Lexeme]) -> Option<usize>
    ensures { result ≡ operators.zero_at (slice_get items.now (length items.now - 1)) }
{
    let last = items.last()?;
    match last.what {
        What::Number(0) => Some(last.span.start),
        _ => None,
    }
}
