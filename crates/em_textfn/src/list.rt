//! The functions on words.
ghost use Rattle.std.specs.Prelude.{◌≡◌, ◌≤◌, [], not, length, map, decimal, slice_get, unwrap_or, IfOk};
ghost use Rattle.std.specs.List.{filter};
ghost use Rattle.em_wordlist.specs.Words.{words_of, joined};
ghost use Rattle.em_wordlist.specs.Stems.{replaced};
ghost use Rattle.em_textfn.specs.Texts as texts;
ghost use Rattle.em_textfn.specs.Texts.{nonempty, sorted, nth_word, word_range};

use em_base::{NoMemory, Text};
use em_wordlist::{join, join_texts, replace, stem, texts};
use itoa::Buffer;
use std::alloc::Global;

/// The words, where each that matches p is replaced by r with the stem put in; none that becomes
/// empty.
fn replaced_words(alloc: Global, p: &[u8], r: &[u8], x: &[u8]) -> Result<Vec<Text>, NoMemory>
    ensures { IfOk result (λ v. v.items ≡ nonempty (map (replaced p.now r.now) (words_of x.now))) }
{
    let mut kept = Vec::new(alloc);
    for word in &texts(alloc, x)? {
        let replaced = replace(alloc, p, r, word)?;
        if !replaced.bytes().is_empty() {
            kept.push(replaced)?;
        }
    }
    Ok(kept)
}

/// `patsubst p,r,x`: those words with one space between each two.
pub(crate) fn patsubst(alloc: Global, p: &[u8], r: &[u8], x: &[u8]) -> Result<Text, NoMemory>
    ensures { IfOk result
        (λ t. t ≡ joined (nonempty (map (replaced p.now r.now) (words_of x.now)))) }
{
    join_texts(alloc, &replaced_words(alloc, p, r, x)?)
}

/// `strip x`: the words with one space between each two.
pub(crate) fn strip(alloc: Global, x: &[u8]) -> Result<Text, NoMemory>
    ensures { IfOk result (λ t. t ≡ joined (words_of x.now)) }
{
    join(alloc, &texts(alloc, x)?)
}

/// `words x`: how many words there are.
pub(crate) fn word_count(alloc: Global, x: &[u8]) -> Result<Text, NoMemory>
    ensures { IfOk result (λ t. t ≡ decimal (length (words_of x.now))) }
{
    let words = texts(alloc, x)?;
    Text::from_slice(alloc, Buffer::new().format(words.len()).as_bytes())
}

/// The word at this index, nothing beyond the end.
fn word_at<'a>(words: &[&'a [u8]], index: usize) -> &'a [u8]
    ensures { result.now ≡ unwrap_or (slice_get (map (λ w. w.now) words.now) index) [] }
{
    match words.get(index) {
        Some(word) => word,
        None => b"",
    }
}

/// `firstword x`.
pub(crate) fn first_word(alloc: Global, x: &[u8]) -> Result<Text, NoMemory>
    ensures { IfOk result (λ t. t ≡ texts.first_word (words_of x.now)) }
{
    Text::from_slice(alloc, word_at(&texts(alloc, x)?, 0))
}

/// `lastword x`.
pub(crate) fn last_word(alloc: Global, x: &[u8]) -> Result<Text, NoMemory>
    ensures { IfOk result (λ t. t ≡ texts.last_word (words_of x.now)) }
{
    let words = texts(alloc, x)?;
    Text::from_slice(alloc, word_at(&words, words.len().saturating_sub(1)))
}

/// Whether a pattern matches the word.
fn matches(patterns: &[&[u8]], word: &[u8]) -> bool
    ensures { result ≡ texts.matches (map (λ p. p.now) patterns.now) word.now }
{
    patterns.iter().any(|pattern| stem(pattern, word).is_some())
}

/// `filter p,x`: the words that a pattern of p matches.
pub(crate) fn filter(alloc: Global, p: &[u8], x: &[u8]) -> Result<Text, NoMemory>
    ensures { IfOk result
        (λ t. t ≡ joined (filter (texts.matches (words_of p.now)) (words_of x.now))) }
{
    let patterns = texts(alloc, p)?;
    let mut words = texts(alloc, x)?;
    words.retain(|word| matches(&patterns, word));
    join(alloc, &words)
}

/// `filter-out p,x`: the words that no pattern of p matches.
pub(crate) fn filter_out(alloc: Global, p: &[u8], x: &[u8]) -> Result<Text, NoMemory>
    ensures { IfOk result
        (λ t. t ≡ joined (filter (λ w. not (texts.matches (words_of p.now) w)) (words_of x.now))) }
{
    let patterns = texts(alloc, p)?;
    let mut words = texts(alloc, x)?;
    words.retain(|word| !matches(&patterns, word));
    join(alloc, &words)
}

/// `sort x`: the words in byte order, once each.
pub(crate) fn sort(alloc: Global, x: &[u8]) -> Result<Text, NoMemory>
    ensures { IfOk result (λ t. t ≡ joined (sorted (words_of x.now))) }
{
    let mut words = texts(alloc, x)?;
    words.sort_unstable();
    words.dedup();
    join(alloc, &words)
}

/// `word n,x`: the n-th word, from 1; nothing beyond the end.
pub(crate) fn word(alloc: Global, n: usize, x: &[u8]) -> Result<Text, NoMemory>
    requires { 1 ≤ n }
    ensures { IfOk result (λ t. t ≡ nth_word n (words_of x.now)) }
{
    Text::from_slice(alloc, word_at(&texts(alloc, x)?, n - 1))
}

/// `wordlist s,e,x`: the words from number s, from 1, up to and with number e.
pub(crate) fn word_list(alloc: Global, s: usize, e: usize, x: &[u8]) -> Result<Text, NoMemory>
    requires { 1 ≤ s }
    ensures { IfOk result (λ t. t ≡ joined (word_range s e (words_of x.now))) }
{
    let words = texts(alloc, x)?;
    let end = e.min(words.len());
    let start = (s - 1).min(end);
    join(alloc, &words[start..end])
}
