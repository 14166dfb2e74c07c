//! The functions of make, one table.
ghost use Rattle.std.specs.Prelude.{◌≡◌, option_map, map};
ghost use Rattle.em_expand.specs.Table.{row_of, table, function_of};

/// What a function gives for its arguments, which are all expanded before.
#[derive(Clone, Copy, Debug, PartialEq, Eq)]
pub(crate) enum SimpleFunction {
    /// A function on texts and words.
    Text,
    /// A function on file names.
    Name,
    Wildcard,
    Value,
    Origin,
    Flavour,
    Eval,
    Info,
    Warning,
    Error,
}

/// How a call of a function is expanded.
#[derive(Clone, Copy, Debug, PartialEq, Eq)]
pub(crate) enum FunctionKind {
    /// It isn't supported.
    Refused,
    If,
    Or,
    And,
    Foreach,
    Call,
    /// All arguments are expanded first.
    Plain(SimpleFunction),
}

/// A function of make.
#[derive(Clone, Copy)]
pub(crate) struct FunctionRow {
    pub(crate) name: &'static [u8],
    pub(crate) function: FunctionKind,
    /// How many arguments it needs.
    pub(crate) least: usize,
    /// How many it has at most: the last one takes all commas behind it. `None` for any number.
    pub(crate) greatest: Option<usize>,
}

macro_rules! row {
    ($name:expr, $function:expr, $least:expr, $greatest:expr) => {
        FunctionRow {
            name: $name,
            function: $function,
            least: $least,
            greatest: $greatest,
        }
    };
}

/// Each function that has a meaning here or is refused by its name.
static FUNCTIONS: [FunctionRow; 39] = [
    row!(
        b"subst",
        FunctionKind::Plain(SimpleFunction::Text),
        3,
        Some(3)
    ),
    row!(
        b"patsubst",
        FunctionKind::Plain(SimpleFunction::Text),
        3,
        Some(3)
    ),
    row!(
        b"strip",
        FunctionKind::Plain(SimpleFunction::Text),
        1,
        Some(1)
    ),
    row!(
        b"words",
        FunctionKind::Plain(SimpleFunction::Text),
        1,
        Some(1)
    ),
    row!(
        b"firstword",
        FunctionKind::Plain(SimpleFunction::Text),
        1,
        Some(1)
    ),
    row!(
        b"lastword",
        FunctionKind::Plain(SimpleFunction::Text),
        1,
        Some(1)
    ),
    row!(
        b"findstring",
        FunctionKind::Plain(SimpleFunction::Text),
        2,
        Some(2)
    ),
    row!(
        b"filter",
        FunctionKind::Plain(SimpleFunction::Text),
        2,
        Some(2)
    ),
    row!(
        b"filter-out",
        FunctionKind::Plain(SimpleFunction::Text),
        2,
        Some(2)
    ),
    row!(
        b"sort",
        FunctionKind::Plain(SimpleFunction::Text),
        1,
        Some(1)
    ),
    row!(
        b"word",
        FunctionKind::Plain(SimpleFunction::Text),
        2,
        Some(2)
    ),
    row!(
        b"wordlist",
        FunctionKind::Plain(SimpleFunction::Text),
        3,
        Some(3)
    ),
    row!(
        b"dir",
        FunctionKind::Plain(SimpleFunction::Name),
        1,
        Some(1)
    ),
    row!(
        b"notdir",
        FunctionKind::Plain(SimpleFunction::Name),
        1,
        Some(1)
    ),
    row!(
        b"suffix",
        FunctionKind::Plain(SimpleFunction::Name),
        1,
        Some(1)
    ),
    row!(
        b"basename",
        FunctionKind::Plain(SimpleFunction::Name),
        1,
        Some(1)
    ),
    row!(
        b"addsuffix",
        FunctionKind::Plain(SimpleFunction::Name),
        2,
        Some(2)
    ),
    row!(
        b"addprefix",
        FunctionKind::Plain(SimpleFunction::Name),
        2,
        Some(2)
    ),
    row!(
        b"join",
        FunctionKind::Plain(SimpleFunction::Name),
        2,
        Some(2)
    ),
    row!(
        b"wildcard",
        FunctionKind::Plain(SimpleFunction::Wildcard),
        1,
        Some(1)
    ),
    row!(b"if", FunctionKind::If, 2, Some(3)),
    row!(b"or", FunctionKind::Or, 1, None),
    row!(b"and", FunctionKind::And, 1, None),
    row!(b"foreach", FunctionKind::Foreach, 3, Some(3)),
    row!(b"call", FunctionKind::Call, 1, None),
    row!(
        b"value",
        FunctionKind::Plain(SimpleFunction::Value),
        1,
        Some(1)
    ),
    row!(
        b"origin",
        FunctionKind::Plain(SimpleFunction::Origin),
        1,
        Some(1)
    ),
    row!(
        b"flavor",
        FunctionKind::Plain(SimpleFunction::Flavour),
        1,
        Some(1)
    ),
    row!(
        b"eval",
        FunctionKind::Plain(SimpleFunction::Eval),
        1,
        Some(1)
    ),
    row!(
        b"info",
        FunctionKind::Plain(SimpleFunction::Info),
        1,
        Some(1)
    ),
    row!(
        b"warning",
        FunctionKind::Plain(SimpleFunction::Warning),
        1,
        Some(1)
    ),
    row!(
        b"error",
        FunctionKind::Plain(SimpleFunction::Error),
        1,
        Some(1)
    ),
    row!(b"shell", FunctionKind::Refused, 1, None),
    row!(b"file", FunctionKind::Refused, 1, None),
    row!(b"guile", FunctionKind::Refused, 1, None),
    row!(b"realpath", FunctionKind::Refused, 1, None),
    row!(b"abspath", FunctionKind::Refused, 1, None),
    row!(b"let", FunctionKind::Refused, 1, None),
    row!(b"intcmp", FunctionKind::Refused, 1, None),
];

/// The table.
pub(crate) fn functions() -> &'static [FunctionRow]
    ensures { map row_of result.now ≡ table }
{
    &FUNCTIONS
}

/// The function of this name.
pub(crate) fn function_of(name: &[u8]) -> Option<&'static FunctionRow>
    ensures { option_map (λ e. row_of e.now) result ≡ function_of name.now }
{
    functions().iter().find(|e| e.name == name)
}
