//! The text of a history.
ghost use Rattle.std.specs.Prelude.{◌≡◌, ◌++◌, ◌+◌, List, ℕ, true, Some, None, take, drop, position, IfOk, IsOk, OnOk, MatchOption};
ghost use Rattle.std.specs.List.{flat_map};
ghost use Rattle.em_history.specs.Histories.{Pair, IsHistory, fits, is_blank, line_of, framed, text_of};

use crate::pair::both_fit;
use bstr::ByteSlice;
use em_base::{NoMemory, Text};
use std::alloc::Global;
use std::cmp::Ordering;

pub(crate) const HEAD: &[u8] = b"EMHIST 1\n";

pub(crate) const END: &[u8] = b".\n";

const NEWLINE: &[u8] = b"\n";

/// The longest text that is read.
pub(crate) const LIMIT: usize = 16_777_216;

/// Appends the pair's line.
pub(crate) fn push_line(text: &mut Text, pair: &(Text, Text)) -> Result<(), NoMemory>
    ensures { OnOk result (text.new ≡ text.old ++ line_of pair.now) }
{
    text.add(pair.0.bytes())?;
    text.add(b" ")?;
    text.add(pair.1.bytes())?;
    text.add(b"\n")
}

/// What stands between the head and the end.
fn body_of(bytes: &[u8]) -> Option<&[u8]>
    ensures { MatchOption result
        ((body : List ℕ) → framed body ≡ bytes.now → ⊥)
        (λ b. framed b.now ≡ bytes.now) }
{
    bytes.strip_prefix(HEAD)?.strip_suffix(END)
}

fn first_blank(text: &[u8]) -> Option<usize>
    ensures { result ≡ position is_blank text.now }
{
    text.iter().position(|b| *b == b' ')
}

/// What stands before and behind the first blank.
fn halves(text: &[u8]) -> Option<(&[u8], &[u8])>
    ensures { MatchOption result
        (position is_blank text.now ≡ None)
        (λ t. (k : ℕ) × (position is_blank text.now ≡ Some k)
        × (t.0.now ≡ take k text.now) × (t.1.now ≡ drop (k + 1) text.now)) }
{
    let at = first_blank(text)?;
    Some((&text[..at], &text[at + 1..]))
}

/// The names that the line says.
fn names_in(line: &[u8]) -> Option<(&[u8], &[u8])>
    ensures { MatchOption result
        ((p : Pair) → fits p ≡ true → line_of p ≡ line.now → ⊥)
        (λ t. (fits (t.0.now, t.1.now) ≡ true) × (line_of (t.0.now, t.1.now) ≡ line.now)) }
{
    let (target, needed) = halves(line.strip_suffix(NEWLINE)?)?;
    if both_fit(target, needed) {
        Some((target, needed))
    } else {
        None
    }
}

/// The pairs of which these are the lines, where they are a history's.
fn pairs_in(alloc: Global, body: &[u8]) -> Result<Option<Vec<(Text, Text)>>, NoMemory>
    ensures { IfOk result (λ r. MatchOption r
        ((ps : List Pair) → IsHistory ps → flat_map line_of ps ≡ body.now → ⊥)
        (λ v. IsHistory v.items × (flat_map line_of v.items ≡ body.now))) }
{
    let mut pairs = Vec::new(alloc);
    let mut previous: &[u8] = b"";
    for line in body.lines_with_terminator() {
        let Some((target, needed)) = names_in(line) else {
            return Ok(None);
        };
        if previous.cmp(line) != Ordering::Less {
            return Ok(None);
        }
        pairs.push((
            Text::from_slice(alloc, target)?,
            Text::from_slice(alloc, needed)?,
        ))?;
        previous = line;
    }
    Ok(Some(pairs))
}

/// The pairs of which this is the text, where it is a history's.
pub(crate) fn pairs_of(alloc: Global, bytes: &[u8]) -> Result<Option<Vec<(Text, Text)>>, NoMemory>
    ensures pairs { IfOk result (λ r. MatchOption r
        ((ps : List Pair) → IsHistory ps → text_of ps ≡ bytes.now → ⊥)
        (λ v. IsHistory v.items × (text_of v.items ≡ bytes.now))) }
    ensures strange { ((body : List ℕ) → framed body ≡ bytes.now → ⊥) → IsOk result }
{
    match body_of(bytes) {
        Some(body) => pairs_in(alloc, body),
        None => Ok(None),
    }
}
