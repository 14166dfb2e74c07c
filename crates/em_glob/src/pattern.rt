//! Names against patterns.
ghost use Rattle.std.specs.Prelude.{◌≡◌, ◌↔◌, IsTrue};
ghost use Rattle.std.specs.List.{list_all};
ghost use Rattle.em_glob.specs.Patterns as patterns;
ghost use Rattle.em_glob.specs.Patterns.{Matches, fits, pieces, is_star};

use crate::glyph::Glyph;
use crate::piece::{closed_length, is_star_at, piece_at, place_behind};

/// A place in a pattern and one in a name.
#[derive(Clone, Copy)]
struct Place {
    glyph: usize,
    byte: usize,
}

/// Whether something in the pattern stands for other than itself: a `*`, a `?`, or a `[` with its
/// `]`, none of them quoted. Takes no memory; steps for each glyph.
pub fn is_pattern(pattern: &[Glyph]) -> bool
    ensures { result ≡ patterns.is_pattern pattern.now }
{
    let closed = closed_length(pattern);
    let mut at = 0;
    while let Some((piece, behind)) = piece_at(pattern, closed, at) {
        if piece.is_wild() {
            return true;
        }
        at = behind;
    }
    false
}

/// Whether every glyph is a `*`.
fn only_stars(glyphs: &[Glyph]) -> bool
    ensures { result ≡ list_all is_star glyphs.now }
{
    glyphs.iter().all(|glyph| glyph.is_bare(b'*'))
}

/// Whether the name matches the pattern, as POSIX's pattern matching notation says, but without
/// classes as `[:alpha:]`: `*` matches any bytes, `?` one byte, `[set]` one of a set with ranges,
/// `[!set]` one that isn't in it, and every other or quoted byte itself. A `[` without its `]`
/// stands for itself; a `]` that comes first in a set is of it. A dot at the name's begin is a byte
/// as others are. Takes no memory. Steps: in the order of the pattern's glyphs times the name's
/// bytes, each counted with one more.
pub fn matches(pattern: &[Glyph], name: &[u8]) -> bool
    ensures test { result ≡ fits (pieces pattern.now) name.now }
    ensures matches { IsTrue result ↔ Matches (pieces pattern.now) name.now }
{
    let closed = closed_length(pattern);
    let mut at = Place { glyph: 0, byte: 0 };
    let mut star: Option<Place> = None;
    while at.byte < name.len() {
        if is_star_at(pattern, at.glyph) {
            at.glyph += 1;
            star = Some(at);
        } else if let Some(glyph) = place_behind(pattern, closed, at.glyph, name[at.byte]) {
            let byte = at.byte + 1;
            at = Place { glyph, byte };
        } else if let Some(last) = star {
            let byte = last.byte + 1;
            at = Place { byte, ..last };
            star = Some(at);
        } else {
            return false;
        }
    }
    only_stars(&pattern[at.glyph..])
}
