//! Modes, and turns.

use em_base::{Seq, Text};
use em_glob::Glyph;

/// What a word is expanded to.
#[derive(Clone, Copy, Debug, PartialEq, Eq)]
pub enum Mode {
    /// Fields: split at spaces, tabs and newlines, and expanded to path names.
    Fields,
    /// One text, as the value of an assignment or the target of a redirection.
    Whole,
    /// The same with whether each byte was quoted, as a pattern of `case`.
    Pattern,
}

/// How far an expansion went.
#[derive(Debug, Drop, PartialEq, Eq)]
pub enum WordTurn {
    /// To its end: the fields, in mode `Whole` one.
    Done(Seq<Text>),
    /// To its end in mode `Pattern`.
    Pattern(Seq<Glyph>),
    /// To where the shell's variable of this name is to be set to this value.
    Set(Text, Text),
    /// To where the output of the word's command substitution of this number is needed.
    Output(usize),
}
