//! What a line consists of.

use crate::no::LexNo;
use em_base::{Seq, Span, Text};

/// What a word begins with, where that bears on the grammar. The first piece of each of these but
/// `Plain` is unquoted bytes.
#[derive(Clone, Copy, Debug, PartialEq, Eq)]
pub enum Start {
    /// A word without a part of its own in the grammar.
    Plain,
    /// The whole word is an unquoted name, and none of the reserved words: its only piece is these
    /// bytes.
    Name,
    /// The word begins with an unquoted name and `=`. Its first piece is these bytes with the `=`
    /// and nothing more.
    Assignment,
    /// The whole word is `!`, unquoted, and its only piece is these bytes; the same holds for each
    /// of the following.
    Bang,
    /// `if`
    If,
    /// `then`
    Then,
    /// `elif`
    Elif,
    /// `else`
    Else,
    /// `fi`
    Fi,
    /// `while`
    While,
    /// `until`
    Until,
    /// `do`
    Do,
    /// `done`
    Done,
    /// `for`
    For,
    /// `in`
    In,
    /// `case`
    Case,
    /// `esac`
    Esac,
    /// `{`
    LeftBrace,
    /// `}`
    RightBrace,
}

/// What stands at a place of the line. A word is `WordStart`, at least one piece and `WordEnd`. A
/// piece is `Bytes`, `Value`, `BadValue` with what belongs to it, an argument (`ArgumentStart`, any
/// number of pieces, `ArgumentEnd`) or a substitution (`SubstitutionStart`, the lexemes of its
/// list, `SubstitutionEnd`).
#[derive(Debug, Drop, PartialEq, Eq)]
pub enum What {
    /// A newline that is no part of a word.
    Newline,
    /// `;`
    Semicolon,
    /// `;;`
    CaseEnd,
    /// `&`
    Ampersand,
    /// `&&`
    AndIf,
    /// `||`
    OrIf,
    /// `|`
    Pipe,
    /// `(`
    LeftParen,
    /// `)`, also that which ends the patterns of a `case`
    RightParen,
    /// The 0, 1 or 2 right before `<`, `>` or `>>`; the 1 or 2 right before `>&`; the 1 or 2 behind
    /// `>&`. Where a descriptor is refused, it stands as 9.
    Number(u8),
    /// `<`
    Less,
    /// `>`
    Great,
    /// `>>`
    DoubleGreat,
    /// `>&`. Where a `Number` doesn't follow, that is a syntax error.
    GreatAnd,
    /// A word begins here, and has no bytes of its own: the span is empty.
    WordStart(Start),
    /// The word ends here; the span is empty.
    WordEnd,
    /// Bytes that stand for themselves.
    Bytes {
        quoted: bool,
        text: Text,
    },
    /// A value without an argument. The form is empty for `$name` and `${name}`, `#` for
    /// `${#name}`, and `?`, with an empty name, for `$?` and `${?}`.
    Value {
        quoted: bool,
        name: Text,
        form: Text,
    },
    /// A value with an argument, whose pieces follow. The form is what stands between the name and
    /// the argument: `-`, `=`, `+` or `?`, these with `:` in front, `%`, `%%`, `#` or `##`.
    ArgumentStart {
        quoted: bool,
        name: Text,
        form: Text,
    },
    /// The `}` behind an argument.
    ArgumentEnd,
    /// `${` with something else behind it, which is a syntax error. What follows up to its `}`
    /// stands as an argument does.
    BadValue,
    /// `$(` or the first of two backquotes.
    SubstitutionStart {
        quoted: bool,
    },
    /// The `)` with which the list behind `$(` ends, or the second of two backquotes.
    SubstitutionEnd,
}

/// What stands at a place of the line, with the bytes that it takes there.
#[derive(Debug, Drop, PartialEq, Eq)]
pub struct Lexeme {
    pub span: Span,
    pub what: What,
}

/// The lexemes of a line, in order.
#[derive(Debug, Drop, PartialEq, Eq)]
pub struct Lexed {
    /// The lexemes, where the line has a fault those that end at its place or before. A word that
    /// begins with what is faulty has its `WordStart` there, and a redirection that is refused its
    /// first lexeme, so that whatever is wrong with a word or a redirection at that place is known.
    pub items: Seq<Lexeme>,
    /// The leftmost fault, where there is one: `Unclosed` or `Refused`.
    pub stop: Option<LexNo>,
}

/// The kind of a token.
#[derive(Clone, Copy, Debug, PartialEq, Eq)]
pub enum TokenKind {
    /// A word.
    Word,
    /// `;`, `;;`, `&`, `&&`, `|`, `||`, `(`, `)`, `<`, `>`, `>>` or `>&`.
    Operator,
    /// A newline.
    Newline,
    /// The number of a descriptor, right before a redirection or behind `>&`.
    Number,
}

/// A token: something that stands in the line outside of all words, or a whole word.
#[derive(Clone, Copy, Debug, PartialEq, Eq)]
pub struct Token {
    pub span: Span,
    pub kind: TokenKind,
}
