//! mkdir, rmdir and touch, of one operand.
ghost use Rattle.std.specs.Prelude.{◌≡◌, IfOk};
ghost use Rattle.em_path.specs.Paths.{parent_text};
ghost use Rattle.em_view.specs.declared.done.Done.{Done};
ghost use Rattle.em_view.specs.Steps.{Does};
ghost use Rattle.em_utility.specs.Operands.{is_free};
ghost use Rattle.em_fileutil.specs.Making.{make_missing, make_all, make_directory, remove_other_directory, remove_directory, touch_absent, touch_operand};

use crate::operand::{LEVELS, Operand};
use em_base::NoMemory;
use em_path::Path;
use em_tree::Kind;
use em_utility::{OperandNo, Reason, fault, named};
use em_view::{Desk, FileNo, View};
use std::alloc::Global;

/// Makes a directory where nothing is; the faults are those of the name.
pub(crate) fn make_missing<V: View>(
    alloc: Global,
    name: &[u8],
    path: &Path,
    desk: &mut Desk<V>,
) -> Result<(), OperandNo>
    ensures { (d : Done) → Does is_free V.tells desk.old desk.new d d result
        (make_missing name.now path.now) }
{
    match named(alloc, name, desk.kind(path))? {
        Kind::Absent => named(alloc, name, desk.make_dir(path)),
        Kind::File => Err(fault(alloc, name, Reason::File(FileNo::NotDir))),
        Kind::Dir => Ok(()),
        Kind::Link => Ok(()),
    }
}

/// The path without its last component; none for the root.
fn parent_of(alloc: Global, path: &Path) -> Result<Option<Path>, NoMemory>
    ensures { IfOk result (λ p. p ≡ parent_text path.now) }
{
    match path.parent(alloc) {
        Ok(parent) => Ok(parent),
        Err(_) => Err(NoMemory),
    }
}

/// Makes each directory of a path that isn't there, the topmost first.
fn make_all<V: View>(
    alloc: Global,
    left: u32,
    name: &[u8],
    path: &Path,
    desk: &mut Desk<V>,
) -> Result<(), OperandNo>
    ensures { (d : Done) → Does is_free V.tells desk.old desk.new d d result
        (make_all left name.now path.now) }
{
    if left == 0 {
        return Ok(());
    }
    let Some(parent) = parent_of(alloc, path)? else {
        return Ok(());
    };
    make_all(alloc, left - 1, name, &parent, desk)?;
    make_missing(alloc, name, path, desk)
}

/// mkdir: with `parents` each directory on the way is made, and what is there already stays.
pub(crate) fn make_directory<V: View>(
    alloc: Global,
    parents: bool,
    operand: &Operand,
    desk: &mut Desk<V>,
) -> Result<(), OperandNo>
    ensures { (d : Done) → Does is_free V.tells desk.old desk.new d d result
        (make_directory parents operand.now) }
{
    if parents {
        make_all(alloc, LEVELS, operand.name.bytes(), &operand.path, desk)
    } else {
        operand.tried(alloc, desk.make_dir(&operand.path))
    }
}

/// Takes an empty directory away, where no link is.
fn remove_other_directory<V: View>(
    alloc: Global,
    operand: &Operand,
    desk: &mut Desk<V>,
) -> Result<(), OperandNo>
    ensures { (d : Done) → Does is_free V.tells desk.old desk.new d d result
        (remove_other_directory operand.now) }
{
    match operand.tried(alloc, desk.kind(&operand.path))? {
        Kind::Absent => operand.tried(alloc, desk.remove(&operand.path)),
        Kind::File => Err(operand.told(alloc, FileNo::NotDir)),
        Kind::Link => Err(operand.told(alloc, FileNo::NotDir)),
        Kind::Dir => operand.tried(alloc, desk.remove(&operand.path)),
    }
}

/// rmdir: takes an empty directory away. A link is none, whatever it leads to.
pub(crate) fn remove_directory<V: View>(
    alloc: Global,
    operand: &Operand,
    desk: &mut Desk<V>,
) -> Result<(), OperandNo>
    ensures { (d : Done) → Does is_free V.tells desk.old desk.new d d result
        (remove_directory operand.now) }
{
    match operand.tried(alloc, desk.link(&operand.path))? {
        Some(_text) => Err(operand.told(alloc, FileNo::NotDir)),
        None => remove_other_directory(alloc, operand, desk),
    }
}

/// Puts an empty file, if it may `create` one.
fn touch_absent<V: View>(
    alloc: Global,
    create: bool,
    operand: &Operand,
    desk: &mut Desk<V>,
) -> Result<(), OperandNo>
    ensures { (d : Done) → Does is_free V.tells desk.old desk.new d d result
        (touch_absent create operand.now) }
{
    if create {
        operand.tried(alloc, desk.put(&operand.path, b""))
    } else {
        Ok(())
    }
}

/// touch: stamps what is there; where nothing is, it puts an empty file if it may `create` one.
pub(crate) fn touch_operand<V: View>(
    alloc: Global,
    create: bool,
    operand: &Operand,
    desk: &mut Desk<V>,
) -> Result<(), OperandNo>
    ensures { (d : Done) → Does is_free V.tells desk.old desk.new d d result
        (touch_operand create operand.now) }
{
    match operand.tried(alloc, desk.kind(&operand.path))? {
        Kind::Absent => touch_absent(alloc, create, operand, desk),
        Kind::File => operand.tried(alloc, desk.touch(&operand.path)),
        Kind::Dir => operand.tried(alloc, desk.touch(&operand.path)),
        Kind::Link => operand.tried(alloc, desk.touch(&operand.path)),
    }
}
