//! The pieces of a pattern.
ghost use Rattle.std.specs.Prelude.{◌≡◌, ◌+◌, ◌<◌, ◌≤◌, ℕ, true, false, length, drop, IfSome, option_map};
ghost use Rattle.std.specs.List.{list_any, position};
ghost use Rattle.em_glob.specs.Patterns as patterns;
ghost use Rattle.em_glob.specs.Patterns.{is_closing, list_length, set, pieces};
ghost use Rattle.em_glob.specs.Steps.{told, begins, begins_any, passed};

use crate::glyph::Glyph;

/// A piece of a pattern.
#[derive(Clone, Copy)]
pub(crate) enum Piece<'a> {
    /// `*`: any bytes, also none.
    AnyBytes,
    /// `?`: one byte.
    AnyByte,
    /// `[..]`: one byte of the list.
    OneOf(&'a [Glyph]),
    /// `[!..]`: one byte that isn't of the list.
    NoneOf(&'a [Glyph]),
    /// One byte, which is this one.
    Itself(u8),
}

/// Whether a list has the byte, by itself or between the ends of a range.
fn has(list: &[Glyph], byte: u8) -> bool
    ensures { result ≡ patterns.has list.now byte }
{
    let mut rest = list;
    loop {
        match rest {
            [first, dash, last, behind @ ..] if dash.is_bare(b'-') => {
                if first.byte <= byte && byte <= last.byte {
                    return true;
                }
                rest = behind;
            }
            [own, behind @ ..] => {
                if own.byte == byte {
                    return true;
                }
                rest = behind;
            }
            [] => return false,
        }
    }
}

impl<'a> Piece<'a> {
    ghost use Rattle.em_glob.specs.Patterns.{is_wild, set_of};
    ghost use Rattle.em_glob.specs.Steps.{meant, takes_one};

    /// A set of this list, or of what isn't in it.
    fn set(negated: bool, list: &'a [Glyph]) -> Piece<'a>
        ensures { meant result ≡ set_of negated list.now }
    {
        if negated {
            Piece::NoneOf(list)
        } else {
            Piece::OneOf(list)
        }
    }

    /// Whether the piece is more than a byte that stands for itself.
    pub(crate) fn is_wild(self) -> bool
        ensures { result ≡ is_wild (meant self.entry) }
    {
        !matches!(self, Piece::Itself(_))
    }

    /// Whether the piece is one byte, and this one.
    fn takes(self, byte: u8) -> bool
        ensures { result ≡ takes_one (meant self.entry) byte }
    {
        match self {
            Piece::AnyBytes => false,
            Piece::AnyByte => true,
            Piece::OneOf(list) => has(list, byte),
            Piece::NoneOf(list) => !has(list, byte),
            Piece::Itself(own) => own == byte,
        }
    }
}

/// How long the pattern is up to its last bare `]`, which is of it; 0 where it has none.
pub(crate) fn closed_length(pattern: &[Glyph]) -> usize
    ensures within { result ≤ length pattern.now }
    ensures rest { list_any is_closing (drop result pattern.now) ≡ false }
    ensures closed { (at : ℕ) → result ≡ at + 1 → list_any is_closing (drop at pattern.now) ≡ true }
{
    let mut closed = pattern.len();
    while closed > 0 && !pattern[closed - 1].is_bare(b']') {
        closed -= 1;
    }
    closed
}

/// Where the first bare `]` stands.
fn closing_at(glyphs: &[Glyph]) -> Option<usize>
    ensures { result ≡ position is_closing glyphs.now }
{
    glyphs.iter().position(|glyph| glyph.is_bare(b']'))
}

/// Where the `]` stands that ends a list which begins at `start`; one that comes first is of the
/// list. The pattern has no bare `]` from `closed` on.
fn list_end(pattern: &[Glyph], closed: usize, start: usize) -> Option<usize>
    requires within { closed ≤ length pattern.now }
    requires rest { list_any is_closing (drop closed pattern.now) ≡ false }
    ensures end { result ≡ option_map (λ n. start + n) (list_length (drop start pattern.now)) }
    ensures within { IfSome result (λ n. (start ≤ n) × (n < length pattern.now)) }
{
    if closed <= start {
        return None;
    }
    let next = start + 1;
    let more = closing_at(&pattern[next..closed])?;
    Some(next + more)
}

/// Whether a `!` comes first in a set.
fn is_negated(set: &[Glyph]) -> bool
    ensures { result ≡ patterns.is_negated set.now }
{
    set.first().is_some_and(|glyph| glyph.is_bare(b'!'))
}

/// The set whose `[` stands at `at`, and the place behind it; `None` where it has no `]`. The
/// pattern has no bare `]` from `closed` on.
fn set_at(pattern: &[Glyph], closed: usize, at: usize) -> Option<(Piece<'_>, usize)>
    requires inside { at < length pattern.now }
    requires within { closed ≤ length pattern.now }
    requires rest { list_any is_closing (drop closed pattern.now) ≡ false }
    ensures set { set (drop (at + 1) pattern.now) ≡ told at result }
    ensures within { IfSome result (λ p. (at < p.1) × (p.1 ≤ length pattern.now)) }
{
    let negated = is_negated(&pattern[at + 1..]);
    let start = at + 1 + usize::from(negated);
    let end = list_end(pattern, closed, start)?;
    Some((Piece::set(negated, &pattern[start..end]), end + 1))
}

/// The piece that begins at `at`, and the place behind it; `None` at the end. The pattern has no
/// bare `]` from `closed` on. Takes steps for each glyph of the piece.
pub(crate) fn piece_at(pattern: &[Glyph], closed: usize, at: usize) -> Option<(Piece<'_>, usize)>
    requires within { closed ≤ length pattern.now }
    requires rest { list_any is_closing (drop closed pattern.now) ≡ false }
    ensures pieces { pieces (drop at pattern.now) ≡ begins pattern.now result }
    ensures within { IfSome result (λ p. (at < p.1) × (p.1 ≤ length pattern.now)) }
{
    let glyph = *pattern.get(at)?;
    if glyph.is_bare(b'*') {
        Some((Piece::AnyBytes, at + 1))
    } else if glyph.is_bare(b'?') {
        Some((Piece::AnyByte, at + 1))
    } else if glyph.is_bare(b'[')
        && let Some(set) = set_at(pattern, closed, at)
    {
        Some(set)
    } else {
        Some((Piece::Itself(glyph.byte), at + 1))
    }
}

/// Whether a `*` stands at `at`.
pub(crate) fn is_star_at(pattern: &[Glyph], at: usize) -> bool
    ensures { result ≡ begins_any (pieces (drop at pattern.now)) }
{
    pattern.get(at).is_some_and(|glyph| glyph.is_bare(b'*'))
}

/// The place behind the piece at `at`, where that is one byte, and this one; `None` for another
/// piece, for a `*` and at the end. The pattern has no bare `]` from `closed` on. Takes steps for
/// each glyph of the piece.
pub(crate) fn place_behind(pattern: &[Glyph], closed: usize, at: usize, byte: u8) -> Option<usize>
    requires within { closed ≤ length pattern.now }
    requires rest { list_any is_closing (drop closed pattern.now) ≡ false }
    ensures passed { passed (pieces (drop at pattern.now)) byte
        ≡ option_map (λ n. pieces (drop n pattern.now)) result }
    ensures within { IfSome result (λ n. (at < n) × (n ≤ length pattern.now)) }
{
    let (piece, behind) = piece_at(pattern, closed, at)?;
    if piece.takes(byte) {
        Some(behind)
    } else {
        None
    }
}
