//! rm, of one operand.
ghost use Rattle.std.specs.Prelude.{◌≡◌, All, codes, false};
ghost use Rattle.em_path.specs.Paths.{IsComponent};
ghost use Rattle.em_view.specs.declared.done.Done.{Done};
ghost use Rattle.em_view.specs.Ends.{is_want};
ghost use Rattle.em_view.specs.Performs.{is_free as free_in};
ghost use Rattle.em_view.specs.Steps.{Does};
ghost use Rattle.em_utility.specs.Operands.{is_free, each};
ghost use Rattle.em_fileutil.specs.Removing.{absent, remove_child, remove_tree, remove_other, remove_node, remove_beneath};

use crate::operand::Operand;
use em_base::Text;
use em_tree::Kind;
use em_utility::{OperandNo, Reason, settle};
use em_view::{Desk, Done, ExecNo, FileNo, View};
use std::alloc::Global;

/// What rm may do.
#[derive(Clone, Copy, Debug, PartialEq, Eq)]
pub(crate) struct Removal {
    /// `-f`: what is absent is no fault.
    pub(crate) force: bool,
    /// `-r`: a directory is removed with what stands in it.
    pub(crate) recursive: bool,
}

/// What is absent is a fault, unless that is forced.
fn absent(alloc: Global, force: bool, operand: &Operand) -> Result<(), OperandNo>
    ensures { free_in is_free result ≡ false → result ≡ absent force operand.now }
{
    if force {
        Ok(())
    } else {
        Err(operand.told(alloc, FileNo::Absent))
    }
}

/// Removes what an operand says, the link where it is one; below it, it goes `left` levels down.
#[cycle(removal)]
pub(crate) fn remove_node<V: View>(
    alloc: Global,
    left: u32,
    how: Removal,
    operand: &Operand,
    desk: &mut Desk<V>,
    done: &mut Done,
) -> Result<(), OperandNo>
    ensures { Does is_free V.tells desk.old desk.new done.old done.new result
        (remove_node (remove_beneath how left) how operand.now) }
{
    match operand.tried(alloc, desk.link(&operand.path))? {
        Some(_text) => operand.tried(alloc, desk.remove(&operand.path)),
        None => remove_other(alloc, left, how, operand, desk, done),
    }
}

/// Removes what is no link.
#[cycle(removal)]
fn remove_other<V: View>(
    alloc: Global,
    left: u32,
    how: Removal,
    operand: &Operand,
    desk: &mut Desk<V>,
    done: &mut Done,
) -> Result<(), OperandNo>
    ensures { Does is_free V.tells desk.old desk.new done.old done.new result
        (remove_other (remove_beneath how left) how operand.now) }
{
    match operand.tried(alloc, desk.kind(&operand.path))? {
        Kind::Absent => absent(alloc, how.force, operand),
        Kind::File => operand.tried(alloc, desk.remove(&operand.path)),
        Kind::Link => operand.tried(alloc, desk.remove(&operand.path)),
        Kind::Dir => {
            if how.recursive {
                remove_tree(alloc, left, how, operand, desk, done)
            } else {
                Err(operand.told(alloc, FileNo::IsDir))
            }
        }
    }
}

/// Removes a directory, after what stands in it.
#[cycle(removal)]
fn remove_tree<V: View>(
    alloc: Global,
    left: u32,
    how: Removal,
    operand: &Operand,
    desk: &mut Desk<V>,
    done: &mut Done,
) -> Result<(), OperandNo>
    ensures { Does is_free V.tells desk.old desk.new done.old done.new result
        (remove_tree (remove_beneath how left) operand.now) }
{
    let inside = operand.there(alloc, desk.names(&operand.path))?;
    remove_each(alloc, left, how, operand, inside.names(), desk, done)?;
    operand.tried(alloc, desk.remove(&operand.path))
}

/// Removes what has these names in a directory, one after another.
#[cycle(removal)]
fn remove_each<V: View>(
    alloc: Global,
    left: u32,
    how: Removal,
    operand: &Operand,
    names: &[Text],
    desk: &mut Desk<V>,
    done: &mut Done,
) -> Result<(), ExecNo>
    requires { All IsComponent names.now }
    ensures { Does is_want V.tells desk.old desk.new done.old done.new result
        (each (codes "rm") (remove_child (remove_beneath how left) operand.now) names.now) }
{
    for name in names {
        let given = remove_child(alloc, left, how, operand, name.bytes(), desk, done);
        settle(alloc, b"rm", given, done)?;
    }
    Ok(())
}

#[cycle(removal)]
fn remove_child<V: View>(
    alloc: Global,
    left: u32,
    how: Removal,
    operand: &Operand,
    name: &[u8],
    desk: &mut Desk<V>,
    done: &mut Done,
) -> Result<(), OperandNo>
    requires { IsComponent name.now }
    ensures { Does is_free V.tells desk.old desk.new done.old done.new result
        (remove_child (remove_beneath how left) operand.now name.now) }
{
    let child = operand.child(alloc, name)?;
    if left == 0 {
        return Err(child.fault(alloc, Reason::BadPath));
    }
    remove_node(alloc, left - 1, how, &child, desk, done)
}
