//! The words that begin a conditional or a directive.
ghost use Rattle.std.specs.Prelude.{◌≡◌};
ghost use Rattle.em_statement.specs.Keywords.{keyword_of};

/// A line's first word, where it is no assignment and no rule.
#[derive(Clone, Copy, Debug, PartialEq, Eq)]
pub enum Keyword {
    Ifeq,
    Ifneq,
    Ifdef,
    Ifndef,
    Else,
    Endif,
    Define,
    Endef,
    Undefine,
    Override,
    Export,
    Unexport,
    Include,
    /// `-include` and `sinclude`
    TryInclude,
    /// `vpath`, `private`, `load`: refused
    Refused,
}

/// The keyword that the word is.
pub(crate) fn find_keyword(word: &[u8]) -> Option<Keyword>
    ensures { result ≡ keyword_of word.now }
{
    match word {
        b"ifeq" => Some(Keyword::Ifeq),
        b"ifneq" => Some(Keyword::Ifneq),
        b"ifdef" => Some(Keyword::Ifdef),
        b"ifndef" => Some(Keyword::Ifndef),
        b"else" => Some(Keyword::Else),
        b"endif" => Some(Keyword::Endif),
        b"define" => Some(Keyword::Define),
        b"endef" => Some(Keyword::Endef),
        b"undefine" => Some(Keyword::Undefine),
        b"override" => Some(Keyword::Override),
        b"export" => Some(Keyword::Export),
        b"unexport" => Some(Keyword::Unexport),
        b"include" => Some(Keyword::Include),
        b"-include" => Some(Keyword::TryInclude),
        b"sinclude" => Some(Keyword::TryInclude),
        b"vpath" => Some(Keyword::Refused),
        b"private" => Some(Keyword::Refused),
        b"load" => Some(Keyword::Refused),
        _ => None,
    }
}
