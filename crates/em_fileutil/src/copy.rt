//! cp and mv, of one source.
ghost use Rattle.std.specs.Prelude.{◌≡◌, ◌≤◌, All, false, length};
ghost use Rattle.std.specs.List.{suffix_len};
ghost use Rattle.em_path.specs.Paths.{IsComponent};
ghost use Rattle.em_view.specs.declared.done.Done.{Done};
ghost use Rattle.em_view.specs.Ends.{is_want};
ghost use Rattle.em_view.specs.Performs.{is_free as free_in};
ghost use Rattle.em_view.specs.Steps.{Does};
ghost use Rattle.em_utility.specs.Operands.{is_free, each};
ghost use Rattle.em_fileutil.specs.Spots.{levels};
ghost use Rattle.em_fileutil.specs.Copying.{copy_file, move_file, copy_as_file, leave_source, copy_child, copy_tree, recurs, copy_node, copy_link, copy_linked, copy_beneath, copy_top, as_name, target_by, target_at, is_slash, ends_with_dot, place_of, destination};

use crate::link::clear;
use crate::make::make_missing;
use crate::operand::{LEVELS, Operand, is_within};
use em_base::Text;
use em_path::Path;
use em_tree::{Kind, LinkText};
use em_utility::{OperandNo, Reason, settle};
use em_view::{Desk, Done, ExecNo, FileNo, View};
use std::alloc::Global;

/// What becomes of a source.
#[derive(Clone, Copy, Debug, PartialEq, Eq)]
pub(crate) enum Manner {
    /// A file is copied, and a directory is a fault.
    Copy,
    /// A directory is copied with what stands in it.
    CopyTree,
    /// The same, and the source is removed; a file keeps its stamp.
    Move,
}

/// Where sources go.
#[derive(Debug, Drop)]
pub(crate) struct Target {
    pub(crate) operand: Operand,
    /// A directory, in which each source keeps its last name, unless it was named with a `.` at the
    /// end; else the one source gets the target's name.
    pub(crate) is_dir: bool,
}

/// A target that is no directory takes one source.
fn as_name(alloc: Global, several: bool, operand: Operand) -> Result<Target, OperandNo>
    ensures { free_in is_free result ≡ false → result ≡ as_name several operand }
{
    if several {
        return Err(operand.told(alloc, FileNo::NotDir));
    }
    Ok(Target {
        operand,
        is_dir: false,
    })
}

fn target_by(
    alloc: Global,
    several: bool,
    operand: Operand,
    kind: Kind,
) -> Result<Target, OperandNo>
    ensures { free_in is_free result ≡ false → result ≡ target_by several operand kind }
{
    match kind {
        Kind::Absent => as_name(alloc, several, operand),
        Kind::File => as_name(alloc, several, operand),
        Kind::Link => as_name(alloc, several, operand),
        Kind::Dir => Ok(Target {
            operand,
            is_dir: true,
        }),
    }
}

/// Where sources go: to a directory, or, of one source, to anything else.
pub(crate) fn target_at<V: View>(
    alloc: Global,
    cwd: &Path,
    several: bool,
    name: &[u8],
    desk: &mut Desk<V>,
) -> Result<Target, OperandNo>
    ensures { (d : Done) → Does is_free V.tells desk.old desk.new d d result
        (target_at cwd.now several name.now) }
{
    let operand = Operand::at(alloc, cwd, name)?;
    let kind = operand.tried(alloc, desk.kind(&operand.path))?;
    target_by(alloc, several, operand, kind)
}

/// How many slashes the name ends with.
fn slashes_behind(name: &[u8]) -> usize
    ensures count { result ≡ suffix_len is_slash name.now }
    ensures within { result ≤ length name.now }
{
    name.iter().rev().take_while(|b| **b == b'/').count()
}

/// Whether the name's last component is `.`.
fn ends_with_dot(name: &[u8]) -> bool
    ensures { result ≡ ends_with_dot name.now }
{
    let text = &name[..name.len() - slashes_behind(name)];
    text == b".".as_slice() || text.ends_with(b"/.")
}

fn place_of(alloc: Global, to: &Target, source: &Operand) -> Result<Operand, OperandNo>
    ensures { free_in is_free result ≡ false → result ≡ place_of to.now source.now }
{
    if !to.is_dir || ends_with_dot(source.name.bytes()) {
        return Ok(to.operand.copy(alloc)?);
    }
    let _text = source.path.text();
    match source.path.last() {
        None => Err(source.fault(alloc, Reason::SameFile)),
        Some(last) => to.operand.child(alloc, last),
    }
}

/// Where a source goes. It may neither go to itself nor below itself.
pub(crate) fn destination(
    alloc: Global,
    to: &Target,
    source: &Operand,
) -> Result<Operand, OperandNo>
    ensures { free_in is_free result ≡ false → result ≡ destination to.now source.now }
{
    let target = place_of(alloc, to, source)?;
    if is_within(source.path.text(), target.path.text()) {
        return Err(source.fault(alloc, Reason::SameFile));
    }
    Ok(target)
}

fn copy_file<V: View>(
    alloc: Global,
    source: &Operand,
    target: &Operand,
    desk: &mut Desk<V>,
) -> Result<(), OperandNo>
    ensures { (d : Done) → Does is_free V.tells desk.old desk.new d d result
        (copy_file source.now target.now) }
{
    let body = source.there(alloc, desk.content(&source.path))?;
    target.tried(alloc, desk.put(&target.path, body.bytes()))
}

fn move_file<V: View>(
    alloc: Global,
    source: &Operand,
    target: &Operand,
    desk: &mut Desk<V>,
) -> Result<(), OperandNo>
    ensures { (d : Done) → Does is_free V.tells desk.old desk.new d d result
        (move_file source.now target.now) }
{
    let body = source.there(alloc, desk.content(&source.path))?;
    let stamp = source.there(alloc, desk.stamp(&source.path))?;
    target.tried(alloc, desk.place(&target.path, body.bytes(), stamp))?;
    source.tried(alloc, desk.remove(&source.path))
}

fn copy_as_file<V: View>(
    alloc: Global,
    manner: Manner,
    source: &Operand,
    target: &Operand,
    desk: &mut Desk<V>,
) -> Result<(), OperandNo>
    ensures { (d : Done) → Does is_free V.tells desk.old desk.new d d result
        (copy_as_file manner source.now target.now) }
{
    match manner {
        Manner::Copy => copy_file(alloc, source, target, desk),
        Manner::CopyTree => copy_file(alloc, source, target, desk),
        Manner::Move => move_file(alloc, source, target, desk),
    }
}

/// A source that is moved is removed once it is copied.
fn leave_source<V: View>(
    alloc: Global,
    manner: Manner,
    source: &Operand,
    desk: &mut Desk<V>,
) -> Result<(), OperandNo>
    ensures { (d : Done) → Does is_free V.tells desk.old desk.new d d result
        (leave_source manner source.now) }
{
    match manner {
        Manner::Copy => Ok(()),
        Manner::CopyTree => Ok(()),
        Manner::Move => source.tried(alloc, desk.remove(&source.path)),
    }
}

/// Whether a directory is copied.
fn recurs(manner: Manner) -> bool
    ensures { result ≡ recurs manner }
{
    match manner {
        Manner::Copy => false,
        Manner::CopyTree | Manner::Move => true,
    }
}

/// Makes a link anew where its source goes, in place of a link or a file.
fn copy_link<V: View>(
    alloc: Global,
    manner: Manner,
    source: &Operand,
    target: &Operand,
    text: &LinkText,
    desk: &mut Desk<V>,
) -> Result<(), OperandNo>
    ensures { (d : Done) → Does is_free V.tells desk.old desk.new d d result
        (copy_link manner source.now target.now text.now) }
{
    clear(alloc, target, desk)?;
    target.tried(alloc, desk.make_link(&target.path, text.bytes()))?;
    leave_source(alloc, manner, source, desk)
}

/// Copies or moves an operand of cp or mv: cp follows a link, mv moves it.
pub(crate) fn copy_top<V: View>(
    alloc: Global,
    utility: &[u8],
    manner: Manner,
    source: &Operand,
    target: &Operand,
    desk: &mut Desk<V>,
    done: &mut Done,
) -> Result<(), OperandNo>
    ensures { Does is_free V.tells desk.old desk.new done.old done.new result
        (copy_top utility.now (copy_beneath utility.now manner levels) manner
        source.now target.now) }
{
    match manner {
        Manner::Move => copy_linked(alloc, utility, LEVELS, manner, source, target, desk, done),
        Manner::Copy => copy_node(alloc, utility, LEVELS, manner, source, target, desk, done),
        Manner::CopyTree => copy_node(alloc, utility, LEVELS, manner, source, target, desk, done),
    }
}

/// Copies or moves a source, as a link where it is one; below it, it goes `left` levels down.
#[cycle(copying)]
fn copy_linked<V: View>(
    alloc: Global,
    utility: &[u8],
    left: u32,
    manner: Manner,
    source: &Operand,
    target: &Operand,
    desk: &mut Desk<V>,
    done: &mut Done,
) -> Result<(), OperandNo>
    ensures { Does is_free V.tells desk.old desk.new done.old done.new result
        (copy_linked utility.now (copy_beneath utility.now manner left) manner
        source.now target.now) }
{
    match source.tried(alloc, desk.link(&source.path))? {
        Some(text) => copy_link(alloc, manner, source, target, &text, desk),
        None => copy_node(alloc, utility, left, manner, source, target, desk, done),
    }
}

/// Copies or moves a source to its target, behind its link; below them, it goes `left` levels
/// down.
#[cycle(copying)]
fn copy_node<V: View>(
    alloc: Global,
    utility: &[u8],
    left: u32,
    manner: Manner,
    source: &Operand,
    target: &Operand,
    desk: &mut Desk<V>,
    done: &mut Done,
) -> Result<(), OperandNo>
    ensures { Does is_free V.tells desk.old desk.new done.old done.new result
        (copy_node utility.now (copy_beneath utility.now manner left) manner
        source.now target.now) }
{
    match source.tried(alloc, desk.kind(&source.path))? {
        Kind::Absent => Err(source.told(alloc, FileNo::Absent)),
        Kind::Link => Err(source.told(alloc, FileNo::Absent)),
        Kind::File => copy_as_file(alloc, manner, source, target, desk),
        Kind::Dir => {
            if recurs(manner) {
                copy_tree(alloc, utility, left, manner, source, target, desk, done)
            } else {
                Err(source.told(alloc, FileNo::IsDir))
            }
        }
    }
}

/// Copies or moves a directory: its target is made where nothing is, and then what stands in it
/// follows.
#[cycle(copying)]
fn copy_tree<V: View>(
    alloc: Global,
    utility: &[u8],
    left: u32,
    manner: Manner,
    source: &Operand,
    target: &Operand,
    desk: &mut Desk<V>,
    done: &mut Done,
) -> Result<(), OperandNo>
    ensures { Does is_free V.tells desk.old desk.new done.old done.new result
        (copy_tree utility.now (copy_beneath utility.now manner left) manner
        source.now target.now) }
{
    make_missing(alloc, target.name.bytes(), &target.path, desk)?;
    let inside = source.there(alloc, desk.names(&source.path))?;
    copy_each(
        alloc,
        utility,
        left,
        manner,
        source,
        target,
        inside.names(),
        desk,
        done,
    )?;
    leave_source(alloc, manner, source, desk)
}

/// Copies or moves what has these names in a directory, one after another.
#[cycle(copying)]
fn copy_each<V: View>(
    alloc: Global,
    utility: &[u8],
    left: u32,
    manner: Manner,
    source: &Operand,
    target: &Operand,
    names: &[Text],
    desk: &mut Desk<V>,
    done: &mut Done,
) -> Result<(), ExecNo>
    requires { All IsComponent names.now }
    ensures { Does is_want V.tells desk.old desk.new done.old done.new result
        (each utility.now (copy_child (copy_beneath utility.now manner left)
        source.now target.now) names.now) }
{
    for name in names {
        let name = name.bytes();
        let given = copy_child(
            alloc, utility, left, manner, source, target, name, desk, done,
        );
        settle(alloc, utility, given, done)?;
    }
    Ok(())
}

#[cycle(copying)]
fn copy_child<V: View>(
    alloc: Global,
    utility: &[u8],
    left: u32,
    manner: Manner,
    source: &Operand,
    target: &Operand,
    name: &[u8],
    desk: &mut Desk<V>,
    done: &mut Done,
) -> Result<(), OperandNo>
    requires { IsComponent name.now }
    ensures { Does is_free V.tells desk.old desk.new done.old done.new result
        (copy_child (copy_beneath utility.now manner left) source.now target.now name.now) }
{
    let from = source.child(alloc, name)?;
    let to = target.child(alloc, name)?;
    if left == 0 {
        return Err(from.fault(alloc, Reason::BadPath));
    }
    copy_linked(alloc, utility, left - 1, manner, &from, &to, desk, done)
}
