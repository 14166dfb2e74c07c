//! Why a utility can't do what it is asked.
ghost use Rattle.std.specs.Prelude.{◌≡◌, IfOk};
ghost use Rattle.em_utility.specs.Reasons.{file_text, reason_text, status_for, error_line};

use em_base::{NoMemory, Text};
use em_view::FileNo;
use std::alloc::Global;

/// Why a utility can't do what it is asked for an operand.
#[derive(Clone, Copy, Debug, PartialEq, Eq)]
pub enum Reason {
    /// The tree refuses it.
    File(FileNo),
    /// The operand is no path.
    BadPath,
    /// A file or directory would go to itself, or below itself.
    SameFile,
    NotANumber,
    MissingOperand,
    ExtraOperand,
}

fn file_text(no: FileNo) -> &'static [u8]
    ensures { result.now ≡ file_text no }
{
    match no {
        FileNo::Absent => b"absent",
        FileNo::NoParent => b"no parent",
        FileNo::NotDir => b"not a directory",
        FileNo::IsDir => b"is a directory",
        FileNo::Exists => b"exists",
        FileNo::NotEmpty => b"not empty",
        FileNo::TooBig => b"too big",
        FileNo::Root => b"root",
        FileNo::TooManyLinks => b"too many links",
        FileNo::LinkPath => b"bad path",
    }
}

impl Reason {
    /// The words of an error line.
    pub fn text(self) -> &'static [u8]
        ensures { result.now ≡ reason_text self }
    {
        match self {
            Reason::File(no) => file_text(no),
            Reason::BadPath => b"bad path",
            Reason::SameFile => b"same file",
            Reason::NotANumber => b"not a number",
            Reason::MissingOperand => b"missing operand",
            Reason::ExtraOperand => b"extra operand",
        }
    }

    /// The status of a command that has it: 2 where the command is written wrongly, else 1.
    pub fn status(self) -> u8
        ensures { result ≡ status_for self }
    {
        match self {
            Reason::File(_) | Reason::BadPath | Reason::SameFile => 1,
            Reason::NotANumber | Reason::MissingOperand | Reason::ExtraOperand => 2,
        }
    }
}

/// The line `emake: UTILITY: OPERAND: REASON`, with its newline.
pub fn error_line(
    alloc: Global,
    utility: &[u8],
    operand: &[u8],
    reason: &[u8],
) -> Result<Text, NoMemory>
    ensures { IfOk result (λ t. t ≡ error_line utility.now operand.now reason.now) }
{
    let mut line = Text::from_slice(alloc, b"emake: ")?;
    line.add(utility)?;
    line.add(b": ")?;
    line.add(operand)?;
    line.add(b": ")?;
    line.add(reason)?;
    line.add(b"\n")?;
    Ok(line)
}
