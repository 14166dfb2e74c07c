//! What a utility does for each of its operands.
ghost use Rattle.em_view.specs.Ends.{is_want};
ghost use Rattle.em_view.specs.Steps.{Does};
ghost use Rattle.em_utility.specs.Operands.{is_free};
ghost use Rattle.em_fileutil.specs.Acts.{copy_operand, act_on, act_for};
ghost use Rattle.em_fileutil.specs.Utilities.{for_each};

use crate::copy::{Manner, Target, copy_top, destination};
use crate::list::{Listing, list_operand};
use crate::make::{make_directory, remove_directory, touch_operand};
use crate::operand::{LEVELS, Operand};
use crate::remove::{Removal, remove_node};
use em_base::Text;
use em_path::Path;
use em_utility::{OperandNo, settle};
use em_view::{Desk, Done, ExecNo, View};
use std::alloc::Global;

/// What is done for each operand.
#[derive(Debug, Drop)]
pub(crate) enum Act {
    Copy(Manner, Target),
    Remove(Removal),
    /// With those on the way, or not.
    MakeDirectory(bool),
    RemoveDirectory,
    /// With leave to make a file, or not.
    Touch(bool),
    ListDirectory(Listing),
}

fn copy_operand<V: View>(
    alloc: Global,
    utility: &[u8],
    manner: Manner,
    to: &Target,
    source: &Operand,
    desk: &mut Desk<V>,
    done: &mut Done,
) -> Result<(), OperandNo>
    ensures { Does is_free V.tells desk.old desk.new done.old done.new result
        (copy_operand utility.now manner to.now source.now) }
{
    let target = destination(alloc, to, source)?;
    copy_top(alloc, utility, manner, source, &target, desk, done)
}

fn act_on<V: View>(
    alloc: Global,
    utility: &[u8],
    act: &Act,
    operand: &Operand,
    desk: &mut Desk<V>,
    done: &mut Done,
) -> Result<(), OperandNo>
    ensures { Does is_free V.tells desk.old desk.new done.old done.new result
        (act_on utility.now act.now operand.now) }
{
    match act {
        Act::Copy(manner, to) => copy_operand(alloc, utility, *manner, to, operand, desk, done),
        Act::Remove(how) => remove_node(alloc, LEVELS, *how, operand, desk, done),
        Act::MakeDirectory(parents) => make_directory(alloc, *parents, operand, desk),
        Act::RemoveDirectory => remove_directory(alloc, operand, desk),
        Act::Touch(create) => touch_operand(alloc, *create, operand, desk),
        Act::ListDirectory(how) => list_operand(alloc, *how, operand, desk, done),
    }
}

fn act_for<V: View>(
    alloc: Global,
    utility: &[u8],
    what: &Act,
    cwd: &Path,
    name: &[u8],
    desk: &mut Desk<V>,
    done: &mut Done,
) -> Result<(), OperandNo>
    ensures { Does is_free V.tells desk.old desk.new done.old done.new result
        (act_for utility.now what.now cwd.now name.now) }
{
    let operand = Operand::at(alloc, cwd, name)?;
    act_on(alloc, utility, what, &operand, desk, done)
}

/// Does the same for one operand after another, whatever faults they have.
pub(crate) fn for_each<V: View>(
    alloc: Global,
    utility: &[u8],
    what: &Act,
    cwd: &Path,
    operands: &[Text],
    desk: &mut Desk<V>,
    done: &mut Done,
) -> Result<(), ExecNo>
    ensures { Does is_want V.tells desk.old desk.new done.old done.new result
        (for_each utility.now what.now cwd.now operands.now) }
{
    for operand in operands {
        let given = act_for(alloc, utility, what, cwd, operand.bytes(), desk, done);
        settle(alloc, utility, given, done)?;
    }
    Ok(())
}
