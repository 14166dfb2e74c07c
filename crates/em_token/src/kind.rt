//! What a lexeme is to the grammar.
ghost use Rattle.std.specs.Prelude.{◌≡◌};
ghost use Rattle.em_token.specs.Kinds.{code_of, class_of, kind_of_bytes as bytes_kind};
ghost use Rattle.em_lexeme.specs.declared.lexeme.What.TheVariants as What;

use em_lexeme::{Start, What};

/// The kinds of lexemes that the grammar tells apart. The begin of a word tells which reserved word
/// it may be.
#[derive(Clone, Copy, Debug, PartialEq, Eq)]
pub enum Kind {
    Plain,
    Name,
    Assignment,
    Bang,
    If,
    Then,
    Elif,
    Else,
    Fi,
    While,
    Until,
    Do,
    Done,
    For,
    In,
    Case,
    Esac,
    LeftBrace,
    RightBrace,
    WordEnd,
    Bytes,
    /// Unquoted bytes that end with `=`.
    Assigning,
    Value,
    ArgumentStart,
    ArgumentEnd,
    BadValue,
    SubstitutionStart,
    SubstitutionEnd,
    Newline,
    Semicolon,
    CaseEnd,
    Ampersand,
    AndIf,
    OrIf,
    Pipe,
    LeftParen,
    RightParen,
    Number,
    Less,
    Great,
    DoubleGreat,
    GreatAnd,
}

impl Kind {
    /// The kind's number, its class in the grammar.
    pub fn code(self) -> u8
        ensures { result ≡ code_of self }
    {
        self as u8
    }
}

/// The kind of a word's begin.
fn kind_of_start(start: Start) -> Kind
    ensures { code_of result ≡ class_of (What.WordStart start) }
{
    match start {
        Start::Plain => Kind::Plain,
        Start::Name => Kind::Name,
        Start::Assignment => Kind::Assignment,
        Start::Bang => Kind::Bang,
        Start::If => Kind::If,
        Start::Then => Kind::Then,
        Start::Elif => Kind::Elif,
        Start::Else => Kind::Else,
        Start::Fi => Kind::Fi,
        Start::While => Kind::While,
        Start::Until => Kind::Until,
        Start::Do => Kind::Do,
        Start::Done => Kind::Done,
        Start::For => Kind::For,
        Start::In => Kind::In,
        Start::Case => Kind::Case,
        Start::Esac => Kind::Esac,
        Start::LeftBrace => Kind::LeftBrace,
        Start::RightBrace => Kind::RightBrace,
    }
}

/// The kind of bytes.
fn kind_of_bytes(quoted: bool, text: &[u8]) -> Kind
    ensures { result ≡ bytes_kind quoted text.now }
{
    if quoted {
        return Kind::Bytes;
    }
    match text.last() {
        Some(b) if *b == b'=' => Kind::Assigning,
        _ => Kind::Bytes,
    }
}

/// The kind of a number: more than a digit the lexer doesn't give.
fn kind_of_number(n: u8) -> Kind
    ensures { code_of result ≡ class_of (What.Number n) }
{
    if n <= 9 { Kind::Number } else { Kind::BadValue }
}

/// The kind of a lexeme.
pub fn kind_of(what: &What) -> Kind
    ensures { code_of result ≡ class_of what.now }
{
    match what {
        What::WordStart(start) => kind_of_start(*start),
        What::WordEnd => Kind::WordEnd,
        What::Bytes { quoted, text } => kind_of_bytes(*quoted, text.bytes()),
        What::Value { .. } => Kind::Value,
        What::ArgumentStart { .. } => Kind::ArgumentStart,
        What::ArgumentEnd => Kind::ArgumentEnd,
        What::BadValue => Kind::BadValue,
        What::SubstitutionStart { .. } => Kind::SubstitutionStart,
        What::SubstitutionEnd => Kind::SubstitutionEnd,
        What::Newline => Kind::Newline,
        What::Semicolon => Kind::Semicolon,
        What::CaseEnd => Kind::CaseEnd,
        What::Ampersand => Kind::Ampersand,
        What::AndIf => Kind::AndIf,
        What::OrIf => Kind::OrIf,
        What::Pipe => Kind::Pipe,
        What::LeftParen => Kind::LeftParen,
        What::RightParen => Kind::RightParen,
        What::Number(n) => kind_of_number(*n),
        What::Less => Kind::Less,
        What::Great => Kind::Great,
        What::DoubleGreat => Kind::DoubleGreat,
        What::GreatAnd => Kind::GreatAnd,
    }
}
