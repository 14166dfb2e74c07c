//! What is open at a place of the text.
ghost use Rattle.std.specs.Prelude.{◌≡◌, None};
ghost use Rattle.em_lexeme.specs.Frames as frames;
ghost use Rattle.em_lexeme.specs.Frames.{outermost};

use crate::bytes::{acts, acts_quoted, ends_word};
use crate::spot::Spot;
use em_base::Stack;

/// What is open.
#[derive(Clone, Copy)]
pub enum Frame {
    /// `(`
    Round,
    /// `case`
    Cases,
    /// A word.
    InWord,
    /// A single quote, which stands there.
    Single(usize),
    /// A double quote, which stands there.
    Double(usize),
    /// A backquote, which stands there, and whether it stands within double quotes.
    Backquotes(usize, bool),
    /// The argument of a value whose `$` stands there, and whether it is read as in double quotes.
    Argument(usize, bool),
    /// A `$(` that stands there, and the spot around its word.
    Substitution(usize, Spot),
}

/// Whether the place is in a list, and not in a word of it.
pub fn is_list(frame: Option<Frame>) -> bool
    ensures { result ≡ frames.is_list frame }
{
    match frame {
        None => true,
        Some(Frame::Round | Frame::Cases | Frame::Substitution(_, _)) => true,
        Some(_) => false,
    }
}

/// Whether a backslash acts before a few bytes only.
pub fn is_quoting(frame: Option<Frame>) -> bool
    ensures { result ≡ frames.is_quoting frame }
{
    match frame {
        Some(Frame::Double(_)) => true,
        Some(Frame::Argument(_, quoted)) => quoted,
        _ => false,
    }
}

/// Whether the place is in single quotes.
pub fn is_single(frame: Option<Frame>) -> bool
    ensures { result ≡ frames.is_single frame }
{
    matches!(frame, Some(Frame::Single(_)))
}

/// Whether the place is in double quotes.
pub fn is_double(frame: Option<Frame>) -> bool
    ensures { result ≡ frames.is_double frame }
{
    matches!(frame, Some(Frame::Double(_)))
}

/// Whether the place is in a word, and in nothing within it.
pub fn is_word(frame: Option<Frame>) -> bool
    ensures { result ≡ frames.is_word frame }
{
    matches!(frame, Some(Frame::InWord))
}

/// Whether a `case` is the innermost that is open.
pub fn is_cases(frame: Option<Frame>) -> bool
    ensures { result ≡ frames.is_cases frame }
{
    matches!(frame, Some(Frame::Cases))
}

/// Whether the place is in backquotes.
pub fn is_backquotes(frame: Option<Frame>) -> bool
    ensures { result ≡ frames.is_backquotes frame }
{
    matches!(frame, Some(Frame::Backquotes(_, _)))
}

/// Whether the place is in backquotes that stand within double quotes.
pub fn is_backquotes_quoted(frame: Option<Frame>) -> bool
    ensures { result ≡ frames.is_backquotes_quoted frame }
{
    match frame {
        Some(Frame::Backquotes(_, quoting)) => quoting,
        _ => false,
    }
}

/// Whether what stands there is quoted.
pub fn is_quoted(frame: Option<Frame>) -> bool
    ensures { result ≡ frames.is_quoted frame }
{
    is_single(frame) || is_quoting(frame)
}

/// Whether the byte stands for itself in a word, within quotes or in an argument.
pub fn is_ordinary(frame: Option<Frame>, byte: u8) -> bool
    ensures { result ≡ frames.is_ordinary frame byte }
{
    match frame {
        Some(Frame::InWord) => !(ends_word(byte) || acts(byte)),
        Some(Frame::Single(_)) => byte != b'\'',
        Some(Frame::Double(_)) => !acts_quoted(byte),
        Some(Frame::Argument(_, true)) => !(byte == b'}' || acts_quoted(byte)),
        Some(Frame::Argument(_, false)) => !(byte == b'}' || acts(byte)),
        _ => false,
    }
}

/// Whether a backslash acts before the byte, within double quotes or an argument there.
pub fn is_escaped_in(frame: Option<Frame>, byte: u8) -> bool
    ensures { result ≡ frames.is_escaped_in frame byte }
{
    match frame {
        Some(Frame::Argument(_, _)) => acts_quoted(byte) || byte == b'\\' || byte == b'}',
        _ => acts_quoted(byte) || byte == b'\\',
    }
}

/// Where it opened, if it must be closed.
pub fn opener(frame: Frame) -> Option<usize>
    ensures { result ≡ frames.opener frame }
{
    match frame {
        Frame::Single(at) => Some(at),
        Frame::Double(at) => Some(at),
        Frame::Backquotes(at, _) => Some(at),
        Frame::Argument(at, _) => Some(at),
        Frame::Substitution(at, _) => Some(at),
        _ => None,
    }
}

/// Where the outermost opens of what is open and must be closed.
pub fn outermost_of(frames: Stack<Frame>) -> Option<usize>
    ensures { result ≡ outermost frames None }
{
    let mut frames = frames;
    let mut found = None;
    while let Some(frame) = frames.pop() {
        found = opener(frame).or(found);
    }
    found
}
