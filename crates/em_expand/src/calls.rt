//! What the text in the brackets of a reference is: a call of a function, a substitution, or a
//! name.
ghost use Rattle.std.specs.Prelude.{◌≡◌, ◌==◌, ◌<◌, ◌≤◌, length, map, option_map, IfOk, IfSome};
ghost use Rattle.std.specs.List.{position, list_any};
ghost use Rattle.em_base.specs.Blanks.{is_blank};
ghost use Rattle.em_wordlist.specs.Stems.{is_percent};
ghost use Rattle.em_expand.specs.Calls as calls;
ghost use Rattle.em_expand.specs.Calls.{call_seen, substitution_seen, split, commas_of, word_length, call_in, call_of, substitution_of, with_percent};

use crate::table::{FunctionRow, function_of};
use em_base::{NoMemory, Text, is_blank, trim_start};
use em_refs::Bracket;
use std::alloc::Global;

/// A call of a function.
#[derive(Drop)]
pub(crate) struct FunctionCall<'a> {
    pub(crate) row: &'static FunctionRow,
    /// The arguments, unexpanded.
    pub(crate) args: Vec<&'a [u8]>,
}

/// Where the first comma stands outside brackets of this kind.
fn comma(bracket: Bracket, text: &[u8]) -> Option<usize>
    ensures within { IfSome result (λ at. at < length text.now) }
    ensures first { result ≡ calls.comma bracket 0 0 text.now }
{
    let mut deep: usize = 0;
    for (at, byte) in text.iter().enumerate() {
        if *byte == b',' && deep == 0 {
            return Some(at);
        }
        if *byte == bracket.opening() {
            deep += 1;
        } else if *byte == bracket.closing() {
            deep = deep.saturating_sub(1);
        }
    }
    None
}

/// The text parted at so many commas at most.
fn split<'a>(
    alloc: Global,
    bracket: Bracket,
    commas: usize,
    text: &'a [u8],
) -> Result<Vec<&'a [u8]>, NoMemory>
    ensures { IfOk result (λ v. map (λ t. t.now) v.items ≡ split bracket commas text.now) }
{
    let mut texts = Vec::new(alloc);
    let mut rest = text;
    for _n in 0..commas {
        let Some(at) = comma(bracket, rest) else {
            texts.push(rest)?;
            return Ok(texts);
        };
        texts.push(&rest[..at])?;
        rest = &rest[at + 1..];
    }
    texts.push(rest)?;
    Ok(texts)
}

/// How many commas part the arguments of a function with so many at most.
fn commas_of(greatest: Option<usize>, text: &[u8]) -> usize
    ensures { result ≡ commas_of greatest text.now }
{
    match greatest {
        None => text.len(),
        Some(n) => n.saturating_sub(1),
    }
}

/// How many bytes the word has with which the text begins.
fn word_length(text: &[u8]) -> usize
    ensures length { result ≡ word_length text.now }
    ensures within { result ≤ length text.now }
{
    text.iter().take_while(|b| !is_blank(**b)).count()
}

/// The function whose name, with a blank behind it, the text begins with, and its arguments.
fn call_in<'a>(
    alloc: Global,
    bracket: Bracket,
    text: &'a [u8],
) -> Result<Option<FunctionCall<'a>>, NoMemory>
    ensures { IfOk result (λ c. option_map call_seen c ≡ call_in bracket text.now) }
{
    let length = word_length(text);
    let Some(row) = function_of(&text[..length]) else {
        return Ok(None);
    };
    let Some((_, rest)) = text[length..].split_first() else {
        return Ok(None);
    };
    let given = trim_start(rest);
    let args = split(alloc, bracket, commas_of(row.greatest, given), given)?;
    Ok(Some(FunctionCall { row, args }))
}

/// The call that the text in a reference's brackets is, where it is one: behind leading blanks the
/// name of a function, a blank, and arguments. They are parted at the commas outside brackets of
/// the reference's own kind; the last argument that a function takes has all commas behind it.
/// Steps for each byte, and a step for each function.
pub(crate) fn call_of<'a>(
    alloc: Global,
    bracket: Option<Bracket>,
    inner: &'a [u8],
) -> Result<Option<FunctionCall<'a>>, NoMemory>
    ensures { IfOk result (λ c. option_map call_seen c ≡ call_of bracket inner.now) }
{
    match bracket {
        None => Ok(None),
        Some(bracket) => call_in(alloc, bracket, trim_start(inner)),
    }
}

/// The parts of `x:a=b`.
#[derive(Clone, Copy)]
pub(crate) struct Substitution<'a> {
    pub(crate) name: &'a [u8],
    pub(crate) from: &'a [u8],
    pub(crate) to: &'a [u8],
}

/// Where the first such byte stands.
fn place_of(byte: u8, text: &[u8]) -> Option<usize>
    ensures place { result ≡ position (λ b. b == byte) text.now }
    ensures within { IfSome result (λ at. at < length text.now) }
{
    text.iter().position(|b| *b == byte)
}

/// What stands in front of the first such byte, and what stands behind it.
fn split_at_byte(byte: u8, text: &[u8]) -> Option<(&[u8], &[u8])>
    ensures { option_map (λ p. (p.0.now, p.1.now)) result ≡ calls.split_at_byte byte text.now }
{
    let at = place_of(byte, text)?;
    Some((&text[..at], &text[at + 1..]))
}

/// The parts at the first `:` and the first `=` behind it, where there are both.
pub(crate) fn substitution_of(text: &[u8]) -> Option<Substitution<'_>>
    ensures { option_map substitution_seen result ≡ substitution_of text.now }
{
    let (name, rest) = split_at_byte(b':', text)?;
    let (from, to) = split_at_byte(b'=', rest)?;
    Some(Substitution { name, from, to })
}

fn has_percent(text: &[u8]) -> bool
    ensures { result ≡ list_any is_percent text.now }
{
    text.iter().any(|b| *b == b'%')
}

/// The text, with a `%` before it where the first has none.
pub(crate) fn with_percent(alloc: Global, from: &[u8], text: &[u8]) -> Result<Text, NoMemory>
    ensures { IfOk result (λ t. t ≡ with_percent from.now text.now) }
{
    if has_percent(from) {
        return Text::from_slice(alloc, text);
    }
    let mut with = Text::from_slice(alloc, b"%")?;
    with.add(text)?;
    Ok(with)
}
