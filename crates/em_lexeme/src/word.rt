//! What a word begins with, and descriptors.
ghost use Rattle.std.specs.Prelude.{◌≡◌, ◌≤◌, length};
ghost use Rattle.std.specs.List.{prefix_len};
ghost use Rattle.em_lexeme.specs.Bytes as bytes;
ghost use Rattle.em_lexeme.specs.Words as words;

use crate::bytes::{begins_name, is_in_name};
use crate::lexeme::Start;

/// The reserved word that the bytes are.
fn reserved(word: &[u8]) -> Option<Start>
    ensures { result ≡ words.reserved word.now }
{
    match word {
        b"!" => Some(Start::Bang),
        b"if" => Some(Start::If),
        b"then" => Some(Start::Then),
        b"elif" => Some(Start::Elif),
        b"else" => Some(Start::Else),
        b"fi" => Some(Start::Fi),
        b"while" => Some(Start::While),
        b"until" => Some(Start::Until),
        b"do" => Some(Start::Do),
        b"done" => Some(Start::Done),
        b"for" => Some(Start::For),
        b"in" => Some(Start::In),
        b"case" => Some(Start::Case),
        b"esac" => Some(Start::Esac),
        b"{" => Some(Start::LeftBrace),
        b"}" => Some(Start::RightBrace),
        _ => None,
    }
}

/// Whether a name may begin with the text's first byte.
fn starts_name(text: &[u8]) -> bool
    ensures { result ≡ words.starts_name text.now }
{
    match text {
        [] => false,
        [first, ..] => begins_name(*first),
    }
}

/// How many bytes at the begin may stand in a name.
fn name_bytes(text: &[u8]) -> usize
    ensures count { result ≡ prefix_len bytes.is_in_name text.now }
    ensures within { result ≤ length text.now }
{
    text.iter().take_while(|b| is_in_name(**b)).count()
}

/// How many bytes the name has with which the text begins.
fn name_length(text: &[u8]) -> usize
    ensures length { result ≡ words.name_length text.now }
    ensures within { result ≤ length text.now }
{
    if starts_name(text) {
        name_bytes(text)
    } else {
        0
    }
}

/// How many bytes a name and `=` have with which the text begins.
pub fn assignment_length(text: &[u8]) -> usize
    ensures length { result ≡ words.assignment_length text.now }
    ensures within { result ≤ length text.now }
{
    (name_length(text) + 1).min(text.len())
}

/// Whether the text is a name.
fn is_name(text: &[u8]) -> bool
    ensures { result ≡ words.is_name text.now }
{
    starts_name(text) && name_length(text) == text.len()
}

/// Whether the text begins with a name and `=`.
fn is_assignment(text: &[u8]) -> bool
    ensures { result ≡ words.is_assignment text.now }
{
    let size = name_length(text);
    starts_name(text) && size < text.len() && text[size] == b'='
}

/// What a word begins with whose first bytes these are, and that goes on otherwise.
pub fn front_start(text: &[u8]) -> Start
    ensures { result ≡ words.front_start text.now }
{
    if is_assignment(text) {
        Start::Assignment
    } else {
        Start::Plain
    }
}

/// What a word begins with that these bytes are, which aren't a reserved word.
fn bare_start(text: &[u8]) -> Start
    ensures { result ≡ words.bare_start text.now }
{
    if is_name(text) {
        Start::Name
    } else {
        front_start(text)
    }
}

/// What a word begins with that these bytes are.
pub fn whole_start(text: &[u8]) -> Start
    ensures { result ≡ words.whole_start (words.reserved text.now) text.now }
{
    match reserved(text) {
        Some(start) => start,
        None => bare_start(text),
    }
}

/// Whether the word begins with a name and `=`.
pub fn is_assigning(start: Start) -> bool
    ensures { result ≡ words.is_assigning start }
{
    matches!(start, Start::Assignment)
}

/// The descriptor that the text is: one digit, of at least `least` and at most 2.
pub fn descriptor(least: u8, text: &[u8]) -> Option<u8>
    requires { least ≤ 2 }
    ensures { result ≡ words.descriptor least text.now }
{
    match text {
        [digit] if 48 + least <= *digit && *digit <= b'2' => Some(*digit - b'0'),
        _ => None,
    }
}

/// Whether each byte is a digit.
pub fn is_number(text: &[u8]) -> bool
    ensures { result ≡ words.is_number text.now }
{
    text.iter().all(|b| b.is_ascii_digit())
}

/// Whether the text is `-`.
pub fn is_dash(text: &[u8]) -> bool
    ensures { result ≡ words.is_dash text.now }
{
    text == b"-".as_slice()
}
