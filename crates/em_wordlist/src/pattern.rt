//! Patterns: the first `%` of a pattern stands for any bytes, its stem.
ghost use Rattle.std.specs.Prelude.{◌≡◌, ℕ, ◌↔◌, List, IfOk, IfSome, IsNone};
ghost use Rattle.std.specs.List.{position};
ghost use Rattle.em_base.specs.Spans.{cut};
ghost use Rattle.em_wordlist.specs.Stems.{is_percent, IsMatch, stem_of, filled, replaced};

use em_base::{NoMemory, Span, Text};
use std::alloc::Global;

/// Where the first `%` stands.
fn percent(text: &[u8]) -> Option<usize>
    ensures { result ≡ position is_percent text.now }
{
    text.iter().position(|b| *b == b'%')
}

/// Where the stem stands in the word, which is what the pattern's first `%` stands for; `None`
/// exactly where the word doesn't match. A backslash before the `%` is an ordinary byte. A pattern
/// without `%` matches itself alone, with an empty stem at 0.
pub fn stem(pattern: &[u8], word: &[u8]) -> Option<Span>
    ensures stem { result ≡ stem_of pattern.now word.now }
    ensures some { IfSome result (λ s. IsMatch pattern.now word.now (cut word.now s)) }
    ensures none { IsNone result ↔ ((s : List ℕ) → IsMatch pattern.now word.now s → ⊥) }
{
    let Some(at) = percent(pattern) else {
        return if word == pattern {
            Some(Span { start: 0, end: 0 })
        } else {
            None
        };
    };
    let (before, after) = (&pattern[..at], &pattern[at + 1..]);
    let fits = before.len() + after.len() <= word.len();
    if fits && word.starts_with(before) && word.ends_with(after) {
        Some(Span {
            start: at,
            end: word.len() - after.len(),
        })
    } else {
        None
    }
}

/// The pattern with the stem for its first `%`. A pattern without `%` stands as it is.
pub fn fill(alloc: Global, pattern: &[u8], stem: &[u8]) -> Result<Text, NoMemory>
    ensures { IfOk result (λ t. t ≡ filled pattern.now stem.now) }
{
    let Some(at) = percent(pattern) else {
        return Text::from_slice(alloc, pattern);
    };
    let mut text = Text::from_slice(alloc, &pattern[..at])?;
    text.add(stem)?;
    text.add(&pattern[at + 1..])?;
    Ok(text)
}

/// The word, and where it matches the pattern the text `to` with the stem for its first `%`. A
/// pattern without `%` has no stem to give: then `to` stands as it is.
pub fn replace(alloc: Global, pattern: &[u8], to: &[u8], word: &[u8]) -> Result<Text, NoMemory>
    ensures { IfOk result (λ t. t ≡ replaced pattern.now to.now word.now) }
{
    let Some(span) = stem(pattern, word) else {
        return Text::from_slice(alloc, word);
    };
    match percent(pattern) {
        Some(_) => fill(alloc, to, span.of(word)),
        None => Text::from_slice(alloc, to),
    }
}
