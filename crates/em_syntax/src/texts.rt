//! Words that are pieces of bytes, as texts.
ghost use Rattle.std.specs.Prelude.{◌≡◌, ◌⊎◌, [], map, option_map, Some, IfOk};
ghost use Rattle.em_syntax.specs.Texts as texts;

use crate::tree::{Word, WordPiece, WordWhat};
use em_base::{NoMemory, Text};
use std::alloc::Global;

/// A command of fewer words is copied faster than compared.
const MANY: usize = 16;

fn bytes_in(piece: &WordPiece) -> Option<&Text>
    ensures { option_map (λ t. t.now) result ≡ texts.bytes_in piece.now }
{
    match &piece.what {
        WordWhat::Bytes(text) => Some(text),
        WordWhat::Value(_) | WordWhat::Argument(_) | WordWhat::End | WordWhat::Output(_) => None,
    }
}

impl Word {
    /// Its bytes, where it is one piece of them, quoted or not. It takes no memory, and one step.
    pub fn bytes(&self) -> Option<&Text>
        ensures { option_map (λ t. t.now) result ≡ texts.bytes_of self.now }
    {
        let (first, others) = self.pieces.split_first()?;
        if others.is_empty() {
            return bytes_in(first);
        }
        None
    }
}

/// A command's words once more, as texts: none, or all of them, where there are many and each is
/// one piece of bytes. A step for each word, and for each of their bytes.
pub fn texts_of(alloc: Global, words: &[Word]) -> Result<Vec<Text>, NoMemory>
    ensures { IfOk result (λ ts. (ts.items ≡ []) ⊎ (map texts.bytes_of words.now
        ≡ map Some ts.items)) }
{
    let mut texts = Vec::new(alloc);
    if words.len() < MANY {
        return Ok(texts);
    }
    for word in words {
        match word.bytes() {
            Some(text) => texts.push(text.copy(alloc)?)?,
            None => return Ok(Vec::new(alloc)),
        }
    }
    Ok(texts)
}
