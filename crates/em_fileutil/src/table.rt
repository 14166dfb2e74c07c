//! The file utilities, one table.
ghost use Rattle.std.specs.Prelude.{◌≡◌, option_map, map};
ghost use Rattle.em_fileutil.specs.Table.{row_of, table, utility_of};

/// What a utility is.
#[derive(Clone, Copy, Debug, PartialEq, Eq)]
pub(crate) enum FileUtility {
    Copy,
    Move,
    Remove,
    MakeDirectory,
    RemoveDirectory,
    Touch,
    ListDirectory,
    MakeLink,
    ReadLink,
}

/// A file utility.
#[derive(Clone, Copy)]
pub(crate) struct UtilityRow {
    pub(crate) name: &'static [u8],
    pub(crate) utility: FileUtility,
    /// The letters of its options.
    pub(crate) letters: &'static [u8],
}

macro_rules! row {
    ($name:expr, $utility:expr, $letters:expr) => {
        UtilityRow {
            name: $name,
            utility: $utility,
            letters: $letters,
        }
    };
}

static UTILITIES: [UtilityRow; 9] = [
    row!(b"cp", FileUtility::Copy, b"fr"),
    row!(b"mv", FileUtility::Move, b"f"),
    row!(b"rm", FileUtility::Remove, b"fr"),
    row!(b"mkdir", FileUtility::MakeDirectory, b"p"),
    row!(b"rmdir", FileUtility::RemoveDirectory, b""),
    row!(b"touch", FileUtility::Touch, b"c"),
    row!(b"ls", FileUtility::ListDirectory, b"1ad"),
    row!(b"ln", FileUtility::MakeLink, b"fs"),
    row!(b"readlink", FileUtility::ReadLink, b""),
];

fn utilities() -> &'static [UtilityRow]
    ensures { map row_of result.now ≡ table }
{
    &UTILITIES
}

/// The utility of this name.
pub(crate) fn utility_of(name: &[u8]) -> Option<&'static UtilityRow>
    ensures { option_map (λ e. row_of e.now) result ≡ utility_of name.now }
{
    utilities().iter().find(|e| e.name == name)
}
