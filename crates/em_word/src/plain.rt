//! Words that are one text in any shell.
ghost use Rattle.std.specs.Prelude.{◌≡◌, option_map};
ghost use Rattle.std.specs.List.{list_all};
ghost use Rattle.em_syntax.specs.Pieces.{what_in};
ghost use Rattle.em_syntax.specs.declared.tree.WordPiece.{out-WordPiece};
ghost use Rattle.em_word.specs.Literal as texts;

use em_syntax::{Word, WordPiece, WordWhat};

/// Whether a byte that isn't quoted neither parts fields nor is of a pattern.
fn is_ordinary(byte: u8) -> bool
    ensures { result ≡ texts.is_ordinary byte }
{
    !matches!(byte, b' ' | b'\t' | b'\n' | b'*' | b'?' | b'[')
}

fn are_ordinary(text: &[u8]) -> bool
    ensures { result ≡ list_all texts.is_ordinary text.now }
{
    text.iter().all(|b| is_ordinary(*b))
}

/// Whether such bytes, and there are some, are ordinary.
fn is_plain(text: &[u8]) -> bool
    ensures { result ≡ texts.is_plain text.now }
{
    !text.is_empty() && are_ordinary(text)
}

/// Whether these bytes come to themselves as one field.
fn stands_alone(quoted: bool, text: &[u8]) -> bool
    ensures { result ≡ texts.stands_alone quoted text.now }
{
    quoted || is_plain(text)
}

/// The text of a piece that is a word.
fn text_in(piece: &WordPiece) -> Option<&[u8]>
    ensures { option_map (λ t. t.now) result
        ≡ texts.text_in (what_in piece.now) (out-WordPiece piece.now).quoted }
{
    match &piece.what {
        WordWhat::Bytes(text) => {
            if stands_alone(piece.quoted, text.bytes()) {
                return Some(text.bytes());
            }
            None
        }
        WordWhat::Value(_) | WordWhat::Argument(_) | WordWhat::End | WordWhat::Output(_) => None,
    }
}

/// The one field that the word comes to, where that can be seen without a shell: it is one piece of
/// bytes that are quoted, or of which none parts fields or is of a pattern. Its expansion asks
/// nothing and costs nothing. Takes no memory; a step for each byte.
pub fn literal(word: &Word) -> Option<&[u8]>
    ensures { option_map (λ t. t.now) result ≡ texts.literal_of word.now }
{
    let (first, others) = word.pieces.split_first()?;
    if others.is_empty() {
        return text_in(first);
    }
    None
}
