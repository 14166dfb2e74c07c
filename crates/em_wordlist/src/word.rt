//! Words of a text.
ghost use Rattle.std.specs.Prelude.{◌≡◌, ℕ, ◌<◌, ◌≤◌, ◌==◌, ◌∷◌, ◌++◌, true, not, map, length, slice_index, IfOk, OnOk, MatchOption, if◌then◌else◌};
ghost use Rattle.std.specs.List.{position};
ghost use Rattle.em_base.specs.Spans.{cut};
ghost use Rattle.em_base.specs.Blanks.{is_blank};
ghost use Rattle.em_wordlist.specs.Words.{IsWord, IsApart, AreWords, words_of, joined};

use em_base::{NoMemory, Span, Text, is_blank};
use std::alloc::Global;

/// Where the first blank stands.
fn blank_at(text: &[u8]) -> Option<usize>
    ensures { result ≡ position is_blank text.now }
{
    text.iter().position(|b| is_blank(*b))
}

/// Where the first byte stands that is no blank.
fn plain_at(text: &[u8]) -> Option<usize>
    ensures { result ≡ position (λ b. not (is_blank b)) text.now }
{
    text.iter().position(|b| !is_blank(*b))
}

/// The first word from `at` on, where no word holds both `at` and the byte before it.
fn next_word(text: &[u8], at: usize) -> Option<Span>
    requires within { at ≤ length text.now }
    requires apart { IsApart text.now at }
    ensures { MatchOption result
        ((i : ℕ) → at ≤ i → i < length text.now → is_blank (slice_index text.now i) ≡ true)
        (λ s. IsWord text.now s × (at ≤ s.start)
        × ((i : ℕ) → at ≤ i → i < s.start → is_blank (slice_index text.now i) ≡ true)) }
{
    let Some(blanks) = plain_at(&text[at..]) else {
        return None;
    };
    let start = at + blanks;
    let end = match blank_at(&text[start..]) {
        Some(length) => start + length,
        None => text.len(),
    };
    Some(Span { start, end })
}

/// The words of a text, its longest runs without blanks, in order. Blanks are space and tab; a
/// newline is none.
pub fn words(alloc: Global, text: &[u8]) -> Result<Vec<Span>, NoMemory>
    ensures words { IfOk result (λ v. AreWords text.now v.items) }
    ensures texts { IfOk result (λ v. map (λ s. cut text.now s) v.items ≡ words_of text.now) }
{
    let mut words = Vec::new(alloc);
    let mut at = 0;
    while let Some(word) = next_word(text, at) {
        at = word.end;
        words.push(word)?;
    }
    Ok(words)
}

/// The words of a text themselves, in order.
pub fn texts<'a>(alloc: Global, text: &'a [u8]) -> Result<Vec<&'a [u8]>, NoMemory>
    ensures { IfOk result (λ v. map (λ w. w.now) v.items ≡ words_of text.now) }
{
    let mut texts = Vec::new(alloc);
    for span in &words(alloc, text)? {
        texts.push(span.of(text))?;
    }
    Ok(texts)
}

/// Appends a text behind so many others that are joined: with a space before it, unless it is the
/// first.
fn add_next(joined: &mut Text, before: usize, next: &[u8]) -> Result<(), NoMemory>
    ensures { OnOk result
        (joined.new ≡ joined.old ++ (if before == 0 then next.now else 32 ∷ next.now)) }
{
    if before > 0 {
        joined.add(b" ")?;
    }
    joined.add(next)
}

/// The words with one space between each two, also where some are empty.
pub fn join(alloc: Global, words: &[&[u8]]) -> Result<Text, NoMemory>
    ensures { IfOk result (λ t. t ≡ joined (map (λ w. w.now) words.now)) }
{
    let mut text = Text::new(alloc);
    for (i, word) in words.iter().enumerate() {
        add_next(&mut text, i, word)?;
    }
    Ok(text)
}

/// The texts with one space between each two, also where some are empty.
pub fn join_texts(alloc: Global, texts: &[Text]) -> Result<Text, NoMemory>
    ensures { IfOk result (λ t. t ≡ joined texts.now) }
{
    let mut text = Text::new(alloc);
    for (i, next) in texts.iter().enumerate() {
        add_next(&mut text, i, next.bytes())?;
    }
    Ok(text)
}
