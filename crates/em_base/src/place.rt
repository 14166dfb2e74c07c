//! Where something stands.
ghost use Rattle.std.specs.Prelude.{◌≡◌, IfOk};
ghost use Rattle.em_base.specs.Spans.{cut};

use crate::memory::NoMemory;
use crate::text::Text;
use std::alloc::Global;

/// A line of a file. Lines count from 1, and each line from number 4,294,967,295 on has that
/// number.
#[derive(Debug, Drop, PartialEq, Eq)]
pub struct Place {
    /// The file's name as it was found.
    pub file: Text,
    /// The line's number.
    pub line: u32,
}

impl Place {
    /// An equal place.
    pub fn copy(&self, alloc: Global) -> Result<Place, NoMemory>
        ensures { IfOk result (λ p. p ≡ self.now) }
    {
        Ok(Place {
            file: self.file.copy(alloc)?,
            line: self.line,
        })
    }
}

/// The bytes of a text from `start` up to, not including, `end`.
#[derive(Clone, Copy, Debug, PartialEq, Eq)]
pub struct Span {
    pub start: usize,
    pub end: usize,
}

impl Span {
    /// The bytes of the span in a text; none of them lies beyond the text's end.
    pub fn of<'a>(self, text: &'a [u8]) -> &'a [u8]
        ensures { result.now ≡ cut text.now self }
    {
        let rest = &text[self.start.min(text.len())..];
        let length = self.end.saturating_sub(self.start);
        &rest[..length.min(rest.len())]
    }
}
