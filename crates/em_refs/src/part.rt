//! What a text consists of.
ghost use Rattle.std.specs.Prelude.{◌≡◌};

use em_base::{Seq, Span};

/// A part of a text.
#[derive(Clone, Copy, Debug, PartialEq, Eq)]
pub enum Part {
    /// Text that stands for itself.
    Literal(Span),
    /// `$$`, which stands for `$`.
    Dollar,
    /// A reference: the text in its brackets, or its one byte.
    Ref(Span),
}

/// The parts of a text in front of its first reference that isn't closed.
#[derive(Debug, Drop)]
pub struct Parted {
    /// The parts in order.
    pub parts: Seq<Part>,
    /// Where the `$` of that reference stands, where there is one.
    pub unclosed: Option<usize>,
}

/// The kind of a reference's brackets.
#[derive(Clone, Copy, Debug, PartialEq, Eq)]
pub enum Bracket {
    /// `(` and `)`
    Round,
    /// `{` and `}`
    Curly,
}

impl Bracket {
    ghost use Rattle.em_refs.specs.Parts.{opening_of, closing_of, bracket_of, bracket_before};

    /// The byte that opens.
    pub fn opening(self) -> u8
        ensures { result ≡ opening_of self }
    {
        match self {
            Bracket::Round => b'(',
            Bracket::Curly => b'{',
        }
    }

    /// The byte that closes.
    pub fn closing(self) -> u8
        ensures { result ≡ closing_of self }
    {
        match self {
            Bracket::Round => b')',
            Bracket::Curly => b'}',
        }
    }

    /// The kind that this byte opens.
    pub(crate) fn opened_by(byte: u8) -> Option<Bracket>
        ensures { result ≡ bracket_of byte }
    {
        match byte {
            b'(' => Some(Bracket::Round),
            b'{' => Some(Bracket::Curly),
            _ => None,
        }
    }

    /// The kind that the byte in front of a span opens. For the span of a reference: the kind of
    /// its brackets, and `None` exactly where it is one byte without brackets.
    pub fn before(text: &[u8], span: Span) -> Option<Bracket>
        ensures { result ≡ bracket_before text.now span }
    {
        Bracket::opened_by(*text.get(span.start.checked_sub(1)?)?)
    }
}
