//! A text parted at a byte, and its first word.
ghost use Rattle.std.specs.Prelude.{◌≡◌, ◌≤◌, ◌==◌, take, drop, length};
ghost use Rattle.std.specs.List.{position};
ghost use Rattle.em_statement.specs.Split as parting;
ghost use Rattle.em_statement.specs.Split.{word_length};

use em_base::{is_blank, trim_start};

/// Where the byte first stands.
pub(crate) fn place_of(byte: u8, text: &[u8]) -> Option<usize>
    ensures { result ≡ position (λ b. b == byte) text.now }
{
    text.iter().position(|b| *b == byte)
}

/// What stands before a place.
pub(crate) fn before(at: usize, text: &[u8]) -> &[u8]
    ensures { result.now ≡ take at text.now }
{
    &text[..at.min(text.len())]
}

/// What stands from a place on.
pub(crate) fn from(at: usize, text: &[u8]) -> &[u8]
    ensures { result.now ≡ drop at text.now }
{
    &text[at.min(text.len())..]
}

/// What stands behind the byte at a place.
pub(crate) fn behind(at: usize, text: &[u8]) -> &[u8]
    ensures { result.now ≡ parting.behind at text.now }
{
    from(at.saturating_add(1), text)
}

/// How long the word is with which the text begins.
fn word_length(text: &[u8]) -> usize
    ensures length { result ≡ word_length text.now }
    ensures within { result ≤ length text.now }
{
    text.iter().take_while(|b| !is_blank(**b)).count()
}

/// The first word of the text; empty where there is none.
pub fn first_word(text: &[u8]) -> &[u8]
    ensures { result.now ≡ parting.first_word text.now }
{
    let text = trim_start(text);
    &text[..word_length(text)]
}

/// What stands behind the first word and the blanks that follow it.
pub(crate) fn after_word(text: &[u8]) -> &[u8]
    ensures { result.now ≡ parting.after_word text.now }
{
    let text = trim_start(text);
    trim_start(&text[word_length(text)..])
}

/// Whether the text holds nothing but blanks.
pub fn is_empty(text: &[u8]) -> bool
    ensures { result ≡ parting.is_empty text.now }
{
    trim_start(text).is_empty()
}
