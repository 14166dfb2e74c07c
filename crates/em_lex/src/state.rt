//! How far a line is read.

use em_base::{Seq, Stack, Text};
use em_lexeme::frame::Frame;
use em_lexeme::spot::Spot;
use em_lexeme::{LexNo, Lexeme};

/// A byte of the text that is read, and where it stands.
#[derive(Clone, Copy)]
pub(crate) struct Byte {
    pub(crate) code: u8,
    pub(crate) at: usize,
    /// The place behind it.
    pub(crate) end: usize,
}

/// What the bytes right before have begun.
#[derive(Clone, Copy)]
pub(crate) enum Mode {
    /// Nothing.
    Ready,
    /// A comment.
    Comment,
    /// An operator, whose first byte this is.
    Operating(u8),
    /// A word or number, of which only unquoted bytes that stand for themselves are read.
    Head,
    /// Bytes that stand for themselves, within a word.
    Gathering,
    /// `$`
    Dollar,
    /// `$` and a name.
    Naming,
    /// `$(`
    Opened,
    /// `${`
    Brace,
    /// `${?`
    Status,
    /// `${#`, and a name where some of it is read.
    Length,
    /// `${` and a name.
    Parameter,
    /// `${`, a name and `:`.
    Colon,
    /// `${`, a name and this byte, `%` or `#`.
    Trim(u8),
}

/// What is known of a text up to some byte of it.
#[derive(Drop)]
pub(crate) struct Lexer {
    /// The lexemes so far.
    pub(crate) items: Seq<Lexeme>,
    /// The first fault besides what isn't closed.
    pub(crate) fault: Option<LexNo>,
    /// What is open, the innermost first.
    pub(crate) frames: Stack<Frame>,
    pub(crate) spot: Spot,
    pub(crate) mode: Mode,
    /// Whether an unquoted backslash stands right before.
    pub(crate) backslash: bool,
    /// Where what the mode tells of begins.
    pub(crate) start: usize,
    /// The bytes of it that stand for themselves, or its name.
    pub(crate) text: Text,
    /// Where each byte of the text stands, within backquotes.
    pub(crate) places: Seq<usize>,
}
