//! What is done for an operand, and how its faults are written.
ghost use Rattle.std.specs.Prelude.{◌≡◌, false, IfErr, Err};
ghost use Rattle.em_view.specs.Actions.{renamed};
ghost use Rattle.em_view.specs.Ends.{is_want};
ghost use Rattle.em_view.specs.Performs.{is_free as free_in, Performs};
ghost use Rattle.em_view.specs.Steps.{with_state};
ghost use Rattle.em_utility.specs.declared.operand.OperandNo.TheVariants.{End};
ghost use Rattle.em_view.specs.declared.done.ExecNo.TheVariants.{NoMemory};
ghost use Rattle.em_utility.specs.Operands.{is_free, refused, located, unread, read, read_path, not_read, settled};

use crate::reason::Reason;
use crate::writing::fail;
use em_base::Text;
use em_path::{Path, PathNo};
use em_tree::{Body, Kind};
use em_view::{Desk, DeskNo, Done, ExecNo, FileNo, View};
use std::alloc::{AllocError, AllocFailed, Global};
use thiserror::Error;

/// Why no more is done for an operand. What was done for it before stands.
#[derive(Debug, Drop, PartialEq, Eq, Error)]
pub enum OperandNo {
    /// The operand, or one that came of it, has a fault, of which a line is written; the next
    /// operand is tried.
    #[error("a fault of an operand")]
    Fault(Text, Reason),
    /// The command doesn't come to its end.
    #[error("{0}")]
    End(ExecNo),
}

impl From<ExecNo> for OperandNo {
    ghost from_gives = { λ e r. r ≡ End e };

    fn from(e: ExecNo) -> OperandNo {
        OperandNo::End(e)
    }
}

impl From<em_base::NoMemory> for OperandNo {
    ghost from_gives = { λ _ r. r ≡ End NoMemory };

    fn from(_e: em_base::NoMemory) -> OperandNo {
        OperandNo::End(ExecNo::NoMemory)
    }
}

impl From<AllocError> for OperandNo {
    ghost from_gives = { λ _ r. r ≡ End NoMemory };

    fn from(_e: AllocError) -> OperandNo {
        OperandNo::End(ExecNo::NoMemory)
    }
}

impl<T: Drop> From<AllocFailed<T>> for OperandNo {
    ghost from_gives = { λ _ r. r ≡ End NoMemory };

    fn from(_e: AllocFailed<T>) -> OperandNo {
        OperandNo::End(ExecNo::NoMemory)
    }
}

/// The operand's fault, unless memory is short.
pub fn fault(alloc: Global, operand: &[u8], reason: Reason) -> OperandNo
    ensures { is_free result ≡ false → result ≡ OperandNo.Fault operand.now reason }
{
    match Text::from_slice(alloc, operand) {
        Ok(name) => OperandNo::Fault(name, reason),
        Err(_) => OperandNo::End(ExecNo::NoMemory),
    }
}

/// A desk's error in what is done for an operand: a refusal is its fault.
fn refused(alloc: Global, operand: &[u8], no: DeskNo) -> OperandNo
    ensures { is_free result ≡ false → result ≡ refused operand.now no }
{
    match no {
        DeskNo::File(no) => fault(alloc, operand, Reason::File(no)),
        DeskNo::Spent => OperandNo::End(ExecNo::Spent),
        DeskNo::NoMemory => OperandNo::End(ExecNo::NoMemory),
    }
}

/// What a desk's call gave in what is done for an operand.
pub fn named<T>(alloc: Global, operand: &[u8], given: Result<T, DeskNo>) -> Result<T, OperandNo>
    ensures { free_in is_free result ≡ false → result ≡ renamed (refused operand.now) given }
{
    match given {
        Ok(value) => Ok(value),
        Err(no) => Err(refused(alloc, operand, no)),
    }
}

/// The path that an operand says, read against the working directory. It is a bad path exactly
/// where it says none.
pub fn located(alloc: Global, cwd: &Path, name: &[u8]) -> Result<Path, OperandNo>
    ensures { free_in is_free result ≡ false → result ≡ located cwd.now name.now }
{
    match Path::read(alloc, cwd, name) {
        Ok(path) => Ok(path),
        Err(PathNo::NoMemory) => Err(OperandNo::End(ExecNo::NoMemory)),
        Err(_) => Err(fault(alloc, name, Reason::BadPath)),
    }
}

/// Why what is no file can't be read.
fn unread(kind: Kind) -> Reason
    ensures { result ≡ unread kind }
{
    match kind {
        Kind::Dir => Reason::File(FileNo::IsDir),
        Kind::Absent | Kind::File | Kind::Link => Reason::File(FileNo::Absent),
    }
}

/// What has no content.
fn not_read<V: View>(
    alloc: Global,
    name: &[u8],
    path: &Path,
    desk: &mut Desk<V>,
) -> Result<Body, OperandNo>
    ensures { Performs is_free V.tells desk.old desk.new result (not_read name.now path.now) }
{
    let kind = named(alloc, name, desk.kind(path))?;
    Err(fault(alloc, name, unread(kind)))
}

fn read_path<V: View>(
    alloc: Global,
    name: &[u8],
    path: &Path,
    desk: &mut Desk<V>,
) -> Result<Body, OperandNo>
    ensures { Performs is_free V.tells desk.old desk.new result (read_path name.now path.now) }
{
    match named(alloc, name, desk.content(path))? {
        Some(body) => Ok(body),
        None => not_read(alloc, name, path, desk),
    }
}

/// The bytes of a file operand. Where it has none, its kind is asked: it is a directory, or else
/// absent. A name that is no path is a bad path and asks nothing. It costs what the desk takes. The
/// bytes are those of the tree, not copied.
pub fn read<V: View>(
    alloc: Global,
    cwd: &Path,
    name: &[u8],
    desk: &mut Desk<V>,
) -> Result<Body, OperandNo>
    ensures { Performs is_free V.tells desk.old desk.new result (read cwd.now name.now) }
{
    let path = located(alloc, cwd, name)?;
    read_path(alloc, name, &path, desk)
}

/// Goes on after what was done for an operand: writes its fault, if it had one. The error is the
/// command's.
pub fn settle(
    alloc: Global,
    utility: &[u8],
    given: Result<(), OperandNo>,
    done: &mut Done,
) -> Result<(), ExecNo>
    ensures { free_in is_want result ≡ false →
        with_state result done.new ≡ settled utility.now (with_state given done.old) }
{
    match given {
        Ok(()) => Ok(()),
        Err(OperandNo::Fault(operand, reason)) => {
            Ok(fail(alloc, done, utility, operand.bytes(), reason)?)
        }
        Err(OperandNo::End(no)) => Err(no),
    }
}
