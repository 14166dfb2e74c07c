//! What the functions make of lists of words.
ghost use Rattle.std.specs.Prelude.{◌≡◌, ◌++◌, [], map, nat_lt, length, slice_get, unwrap_or, IfOk};
ghost use Rattle.std.specs.List.{filter};
ghost use Rattle.em_wordlist.specs.Words.{words_of, joined};
ghost use Rattle.em_namefn.specs.Names as names;
ghost use Rattle.em_namefn.specs.Names.{part_of};

use crate::name::NamePart;
use em_base::{NoMemory, Text};
use em_wordlist::{join, join_texts, texts};
use std::alloc::Global;

/// A part of each word.
fn parts<'a>(alloc: Global, part: NamePart, x: &'a [u8]) -> Result<Vec<&'a [u8]>, NoMemory>
    ensures { IfOk result (λ v. map (λ w. w.now) v.items ≡ map (part_of part) (words_of x.now)) }
{
    let mut parts = Vec::new(alloc);
    for word in &texts(alloc, x)? {
        parts.push(part.of(word))?;
    }
    Ok(parts)
}

/// `dir x`, `notdir x` and `basename x`: a part of each word.
pub(crate) fn part(alloc: Global, part: NamePart, x: &[u8]) -> Result<Text, NoMemory>
    ensures { IfOk result (λ t. t ≡ joined (map (part_of part) (words_of x.now))) }
{
    join(alloc, &parts(alloc, part, x)?)
}

/// `suffix x`: words without a suffix give nothing.
pub(crate) fn suffix(alloc: Global, x: &[u8]) -> Result<Text, NoMemory>
    ensures { IfOk result
        (λ t. t ≡ joined (filter
        (λ s. nat_lt 0 (length s)) (map names.suffix_of (words_of x.now)))) }
{
    let mut suffixes = parts(alloc, NamePart::Suffix, x)?;
    suffixes.retain(|s| !s.is_empty());
    join(alloc, &suffixes)
}

/// Two texts, the one behind the other.
fn both(alloc: Global, front: &[u8], back: &[u8]) -> Result<Text, NoMemory>
    ensures { IfOk result (λ t. t ≡ front.now ++ back.now) }
{
    let mut text = Text::from_slice(alloc, front)?;
    text.add(back)?;
    Ok(text)
}

/// Each word between two texts.
fn between(alloc: Global, front: &[u8], x: &[u8], back: &[u8]) -> Result<Vec<Text>, NoMemory>
    ensures { IfOk result (λ v. v.items ≡ map (λ w. front.now ++ w ++ back.now) (words_of x.now)) }
{
    let mut all = Vec::new(alloc);
    for word in &texts(alloc, x)? {
        let mut text = both(alloc, front, word)?;
        text.add(back)?;
        all.push(text)?;
    }
    Ok(all)
}

/// `addsuffix s,x`
pub(crate) fn add_suffix(alloc: Global, s: &[u8], x: &[u8]) -> Result<Text, NoMemory>
    ensures { IfOk result (λ t. t ≡ joined (map (λ w. w ++ s.now) (words_of x.now))) }
{
    join_texts(alloc, &between(alloc, b"", x, s)?)
}

/// `addprefix p,x`
pub(crate) fn add_prefix(alloc: Global, p: &[u8], x: &[u8]) -> Result<Text, NoMemory>
    ensures { IfOk result (λ t. t ≡ joined (map (λ w. p.now ++ w) (words_of x.now))) }
{
    join_texts(alloc, &between(alloc, p, x, b"")?)
}

/// The words of two lists one by one, the n-th of them; nothing beyond the end of a list.
fn word_at<'a>(words: &[&'a [u8]], n: usize) -> &'a [u8]
    ensures { result.now ≡ unwrap_or (slice_get (map (λ w. w.now) words.now) n) [] }
{
    match words.get(n) {
        Some(word) => word,
        None => b"",
    }
}

fn pairs(alloc: Global, a: &[&[u8]], b: &[&[u8]]) -> Result<Vec<Text>, NoMemory>
    ensures { IfOk result
        (λ v. v.items ≡ names.pairs (map (λ w. w.now) a.now) (map (λ w. w.now) b.now)) }
{
    let mut all = Vec::new(alloc);
    for n in 0..a.len().max(b.len()) {
        all.push(both(alloc, word_at(a, n), word_at(b, n))?)?;
    }
    Ok(all)
}

/// `join a,b`: the words of a and b one by one; those that are left stay as they are.
pub(crate) fn join_pairs(alloc: Global, a: &[u8], b: &[u8]) -> Result<Text, NoMemory>
    ensures { IfOk result (λ t. t ≡ joined (names.pairs (words_of a.now) (words_of b.now))) }
{
    let (a, b) = (texts(alloc, a)?, texts(alloc, b)?);
    let all = pairs(alloc, &a, &b)?;
    join_texts(alloc, &all)
}
