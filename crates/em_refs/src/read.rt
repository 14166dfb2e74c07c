//! The parts of a text.
ghost use Rattle.std.specs.Prelude.{◌≡◌, ◌⊎◌, ◌+◌, ◌<◌, ◌≤◌, ℕ, Ok, Err, Some, IfOk, IfErr, IfSome, length, drop, slice_index, ◌==◌};
ghost use Rattle.std.specs.List.{position_or_len};
ghost use Rattle.em_refs.specs.Parts.{inside, parts_from, parted, parts_of};
ghost use Rattle.em_refs.specs.Steps.{rest_from, begins, closes};

use crate::no::RefNo;
use crate::part::{Bracket, Part, Parted};
use em_base::{NoMemory, Seq, Span};
use std::alloc::Global;

/// Where the bracket that opened before the bytes is closed in them; only brackets of its own kind
/// count.
fn closing(bracket: Bracket, rest: &[u8]) -> Option<usize>
    ensures within { IfSome result (λ n. n < length rest.now) }
    ensures parts { (from : ℕ)
        → parts_from (inside from bracket 0) (from + 2) rest.now ≡ closes from rest.now result }
{
    let mut deep: usize = 0;
    for (at, byte) in rest.iter().enumerate() {
        if *byte == bracket.closing() {
            if deep == 0 {
                return Some(at);
            }
            deep -= 1;
        } else if *byte == bracket.opening() {
            deep += 1;
        }
    }
    None
}

/// The reference in brackets whose `$` stands at `at`, and the place behind it; `None` where it
/// isn't closed.
fn bracketed(text: &[u8], at: usize, bracket: Bracket) -> Option<(Part, usize)>
    requires inside { at + 1 < length text.now }
    ensures within { IfSome result (λ p. (at < p.1) × (p.1 ≤ length text.now)) }
    ensures parts { parts_from (inside at bracket 0) (at + 2) (drop (at + 2) text.now)
        ≡ begins text.now at result }
{
    let start = at + 2;
    let end = start + closing(bracket, &text[start..])?;
    Some((Part::Ref(Span { start, end }), end + 1))
}

/// What the `$` at `at` begins, and the place behind it; `None` where that is a reference that
/// isn't closed.
fn reference(text: &[u8], at: usize) -> Option<(Part, usize)>
    requires within { at < length text.now }
    requires begun { slice_index text.now at ≡ 36 }
    ensures within { IfSome result (λ p. (at < p.1) × (p.1 ≤ length text.now)) }
    ensures parts { rest_from text.now at ≡ begins text.now at result }
{
    let next = *text.get(at + 1)?;
    if let Some(bracket) = Bracket::opened_by(next) {
        return bracketed(text, at, bracket);
    }
    let start = at + 1;
    let end = at + 2;
    if next == b'$' {
        Some((Part::Dollar, end))
    } else {
        Some((Part::Ref(Span { start, end }), end))
    }
}

/// How many bytes stand before the first `$`.
fn before_dollar(rest: &[u8]) -> usize
    ensures within { result ≤ length rest.now }
    ensures first { result ≡ position_or_len (λ b. b == 36) rest.now }
{
    rest.iter().take_while(|byte| **byte != b'$').count()
}

/// The part that begins at `at`, and the place behind it; `None` where that is a reference that
/// isn't closed.
fn part_at(text: &[u8], at: usize) -> Option<(Part, usize)>
    requires { at < length text.now }
    ensures within { IfSome result (λ p. (at < p.1) × (p.1 ≤ length text.now)) }
    ensures parts { rest_from text.now at ≡ begins text.now at result }
{
    if text[at] == b'$' {
        return reference(text, at);
    }
    let end = at + before_dollar(&text[at..]);
    Some((Part::Literal(Span { start: at, end }), end))
}

/// The parts of a text in order, their spans in the text, up to the first reference that isn't
/// closed or `$` that is the last byte, and where that stands. `$(..)` and `${..}` are references
/// with the text inside, in which only brackets of the same kind count; `$` before another byte is
/// a reference of that byte, and `$$` a `$`.
pub fn parts_before(alloc: Global, text: &[u8]) -> Result<Parted, NoMemory>
    ensures { IfOk result (λ p. p ≡ parted text.now) }
{
    let mut parts = Seq::new(alloc);
    let mut at = 0;
    while at < text.len() {
        let Some((part, after)) = part_at(text, at) else {
            let unclosed = Some(at);
            return Ok(Parted { parts, unclosed });
        };
        parts.push(part)?;
        at = after;
    }
    let unclosed = None;
    Ok(Parted { parts, unclosed })
}

/// The parts of a text in which every reference is closed, as `parts_before` gives them. `Unclosed`
/// is the place of the first reference that isn't closed, or of a `$` that is the last byte.
pub fn parts(alloc: Global, text: &[u8]) -> Result<Vec<Part>, RefNo>
    ensures ok { IfOk result (λ v. parts_of text.now ≡ Ok v.items) }
    ensures err { IfErr result (λ e. (e ≡ RefNo.NoMemory) ⊎ (parts_of text.now ≡ Err e)) }
{
    let Parted { parts, unclosed } = parts_before(alloc, text)?;
    match unclosed {
        Some(at) => Err(RefNo::Unclosed(at)),
        None => Ok(parts.into_vec()),
    }
}
