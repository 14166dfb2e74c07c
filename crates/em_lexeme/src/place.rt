//! Places, and the places of what stands in backquotes.
ghost use Rattle.std.specs.Prelude.{◌≡◌, ◌+◌, ◌++◌, min, map, OnOk};
ghost use Rattle.em_lexeme.specs.Places as moving;

use crate::lexeme::Lexeme;
use crate::no::LexNo;
use em_base::{NoMemory, Seq, Span};

/// The place `size` bytes behind `start`, or `to` where that comes before.
pub fn place_behind(start: usize, size: usize, to: usize) -> usize
    ensures { result ≡ min (start + size) to }
{
    start.saturating_add(size).min(to)
}

/// Where the i-th byte of the text in backquotes stands, or behind the last one the backquote that
/// closes them.
fn place_in(places: &[usize], close: usize, i: usize) -> usize
    ensures { result ≡ moving.place_in places.now close i }
{
    places.get(i).copied().unwrap_or(close)
}

/// A lexeme of the text in backquotes, at its place in the text around.
fn moved(places: &[usize], close: usize, lexeme: Lexeme) -> Lexeme
    ensures { result ≡ moving.moved places.now close lexeme }
{
    let Lexeme { span, what } = lexeme;
    let start = place_in(places, close, span.start);
    let end = place_in(places, close, span.end);
    let span = Span { start, end };
    Lexeme { span, what }
}

/// A fault of the text in backquotes, at its place in the text around.
pub fn moved_fault(places: &[usize], close: usize, fault: LexNo) -> LexNo
    ensures { result ≡ moving.moved_fault places.now close fault }
{
    match fault {
        LexNo::Unclosed(at) => LexNo::Unclosed(place_in(places, close, at)),
        LexNo::Refused(construct, at) => LexNo::Refused(construct, place_in(places, close, at)),
        LexNo::NoMemory => LexNo::NoMemory,
    }
}

/// Appends the lexemes of the text in backquotes.
pub fn add_moved(
    items: &mut Seq<Lexeme>,
    inner: Vec<Lexeme>,
    places: &[usize],
    close: usize,
) -> Result<(), NoMemory>
    ensures { OnOk result
        (items.new ≡ items.old ++ map (moving.moved places.now close) inner.items) }
{
    for lexeme in inner {
        items.push(moved(places, close, lexeme))?;
    }
    Ok(())
}
