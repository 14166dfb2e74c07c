//! The utilities by their names.
ghost use Rattle.std.specs.Prelude.{◌≡◌};
ghost use Rattle.em_textutil.specs.Plans as plans;
ghost use Rattle.em_textutil.specs.Utilities as utilities;
ghost use Rattle.em_textutil.specs.Utilities.{is_dashed};

/// A utility that reads nothing.
#[derive(Clone, Copy, Debug, PartialEq, Eq)]
pub enum NoInputUtility {
    Echo,
    Printf,
    Basename,
    Dirname,
    /// `true`, and `:`
    True,
    False,
}

/// A utility that reads its input or files.
#[derive(Clone, Copy, Debug, PartialEq, Eq)]
pub enum InputUtility {
    Cat,
    Head,
    Tail,
    Wc,
    Sort,
    Uniq,
    Cmp,
    Grep,
}

/// A text utility.
#[derive(Clone, Copy, Debug, PartialEq, Eq)]
pub enum TextUtility {
    Plain(NoInputUtility),
    Reading(InputUtility),
    Test,
    /// `[`
    Bracket,
}

/// The utility of this name.
pub(crate) fn utility_of(name: &[u8]) -> Option<TextUtility>
    ensures { result ≡ utilities.utility_of name.now }
{
    match name {
        b"cat" => Some(TextUtility::Reading(InputUtility::Cat)),
        b"echo" => Some(TextUtility::Plain(NoInputUtility::Echo)),
        b"printf" => Some(TextUtility::Plain(NoInputUtility::Printf)),
        b"head" => Some(TextUtility::Reading(InputUtility::Head)),
        b"tail" => Some(TextUtility::Reading(InputUtility::Tail)),
        b"wc" => Some(TextUtility::Reading(InputUtility::Wc)),
        b"sort" => Some(TextUtility::Reading(InputUtility::Sort)),
        b"uniq" => Some(TextUtility::Reading(InputUtility::Uniq)),
        b"cmp" => Some(TextUtility::Reading(InputUtility::Cmp)),
        b"grep" => Some(TextUtility::Reading(InputUtility::Grep)),
        b"basename" => Some(TextUtility::Plain(NoInputUtility::Basename)),
        b"dirname" => Some(TextUtility::Plain(NoInputUtility::Dirname)),
        b"test" => Some(TextUtility::Test),
        b"[" => Some(TextUtility::Bracket),
        b"true" => Some(TextUtility::Plain(NoInputUtility::True)),
        b"false" => Some(TextUtility::Plain(NoInputUtility::False)),
        b":" => Some(TextUtility::Plain(NoInputUtility::True)),
        _ => None,
    }
}

pub(crate) fn name_of(reading: InputUtility) -> &'static [u8]
    ensures { result.now ≡ plans.name_of reading }
{
    match reading {
        InputUtility::Cat => b"cat",
        InputUtility::Head => b"head",
        InputUtility::Tail => b"tail",
        InputUtility::Wc => b"wc",
        InputUtility::Sort => b"sort",
        InputUtility::Uniq => b"uniq",
        InputUtility::Cmp => b"cmp",
        InputUtility::Grep => b"grep",
    }
}

/// The letters of its options.
pub(crate) fn letters_of(reading: InputUtility) -> &'static [u8]
    ensures { result.now ≡ plans.letters_of reading }
{
    match reading {
        InputUtility::Cat => b"",
        InputUtility::Head => b"n",
        InputUtility::Tail => b"n",
        InputUtility::Wc => b"lwc",
        InputUtility::Sort => b"ru",
        InputUtility::Uniq => b"c",
        InputUtility::Cmp => b"s",
        InputUtility::Grep => b"Fvcqx",
    }
}

/// Those of them that take a value.
pub(crate) fn valued_of(reading: InputUtility) -> &'static [u8]
    ensures { result.now ≡ plans.valued_of reading }
{
    match reading {
        InputUtility::Head => b"n",
        InputUtility::Tail => b"n",
        _ => b"",
    }
}

/// Whether an operand `-` is the input.
pub(crate) fn is_dashed(reading: InputUtility) -> bool
    ensures { result ≡ is_dashed reading }
{
    match reading {
        InputUtility::Cat => true,
        _ => false,
    }
}
