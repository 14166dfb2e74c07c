//! A text without a part at its begin or end that matches a pattern.
ghost use Rattle.std.specs.Prelude.{◌≡◌, ◌≤◌, length, drop, take, IfSome};
ghost use Rattle.em_glob.specs.Patterns.{fits, pieces};
ghost use Rattle.em_fields.specs.Cuts as cuts;
ghost use Rattle.em_fields.specs.Cuts.{first_place, last_place, is_suffix_at, is_prefix_to};

use em_glob::{Glyph, matches};

/// What is cut off a text.
#[derive(Clone, Copy, Debug, PartialEq, Eq)]
pub enum Cut {
    /// `%`: the shortest part at the end that matches
    ShortSuffix,
    /// `%%`: the longest one
    LongSuffix,
    /// `#`: the shortest part at the begin that matches
    ShortPrefix,
    /// `##`: the longest one
    LongPrefix,
}

/// The first place from which on the text matches.
fn first_suffix(pattern: &[Glyph], text: &[u8]) -> Option<usize>
    ensures { result ≡ first_place (is_suffix_at pattern.now text.now) (length text.now) }
{
    for i in 0..text.len() + 1 {
        if matches(pattern, behind(text, Some(i))) {
            return Some(i);
        }
    }
    None
}

/// The last one.
fn last_suffix(pattern: &[Glyph], text: &[u8]) -> Option<usize>
    ensures { result ≡ last_place (is_suffix_at pattern.now text.now) (length text.now) }
{
    for i in 0..text.len() + 1 {
        if matches(pattern, behind(text, Some(text.len() - i))) {
            return Some(text.len() - i);
        }
    }
    None
}

/// The first place up to which the text matches.
fn first_prefix(pattern: &[Glyph], text: &[u8]) -> Option<usize>
    ensures { result ≡ first_place (is_prefix_to pattern.now text.now) (length text.now) }
{
    for i in 0..text.len() + 1 {
        if matches(pattern, &text[..i]) {
            return Some(i);
        }
    }
    None
}

/// The last one.
fn last_prefix(pattern: &[Glyph], text: &[u8]) -> Option<usize>
    ensures { result ≡ last_place (is_prefix_to pattern.now text.now) (length text.now) }
{
    for i in 0..text.len() + 1 {
        if matches(pattern, &text[..text.len() - i]) {
            return Some(text.len() - i);
        }
    }
    None
}

/// The text without the part that matches; the whole text where none does. Takes no memory. Steps:
/// those of one match for each byte of the text.
pub fn cut_off<'a>(cut: Cut, pattern: &[Glyph], text: &'a [u8]) -> &'a [u8]
    ensures { result.now ≡ cuts.cut_off cut pattern.now text.now }
{
    match cut {
        Cut::ShortSuffix => before(text, last_suffix(pattern, text)),
        Cut::LongSuffix => before(text, first_suffix(pattern, text)),
        Cut::ShortPrefix => behind(text, first_prefix(pattern, text)),
        Cut::LongPrefix => behind(text, last_prefix(pattern, text)),
    }
}

/// What stands before the place, or the whole text.
fn before(text: &[u8], place: Option<usize>) -> &[u8]
    ensures { result.now ≡ cuts.before text.now place }
{
    let end = place.unwrap_or(text.len()).min(text.len());
    &text[..end]
}

/// What stands behind it.
fn behind(text: &[u8], place: Option<usize>) -> &[u8]
    ensures { result.now ≡ cuts.behind text.now place }
{
    let start = place.unwrap_or(0).min(text.len());
    &text[start..]
}
