//! ln and readlink, of one link, and the place of a link.
ghost use Rattle.std.specs.Prelude.{◌≡◌, ◌↔◌, ◌++◌, ◌∷◌, [], false, IsOk, IsTrue, IfOk};
ghost use Rattle.std.specs.List.{list_all};
ghost use Rattle.em_tree.specs.LinkTexts.{IsLinkText};
ghost use Rattle.em_view.specs.declared.done.Done.{Done};
ghost use Rattle.em_view.specs.Performs.{is_free as free_in};
ghost use Rattle.em_view.specs.Steps.{Does, Works};
ghost use Rattle.em_utility.specs.Operands.{is_free};
ghost use Rattle.em_fileutil.specs.Linking as linking;
ghost use Rattle.em_fileutil.specs.Linking.{is_plain, clear_other, clear, named_in, clear_if, link_operand, says_link, link_path, link_by, read_link};

use crate::operand::Operand;
use em_base::{NoMemory, Text};
use em_path::{Path, PathNo};
use em_tree::{Kind, LinkText};
use em_utility::{OperandNo, Reason, fault, located, named, write};
use em_view::{Desk, Done, View};
use std::alloc::Global;

fn is_plain(byte: u8) -> bool
    ensures { result ≡ is_plain byte }
{
    !(byte == 0 || byte == b'\n')
}

fn are_plain(bytes: &[u8]) -> bool
    ensures { result ≡ list_all is_plain bytes.now }
{
    bytes.iter().all(|b| is_plain(*b))
}

/// Whether a link may say this.
fn is_link_text(text: &[u8]) -> bool
    ensures is { result ≡ linking.is_link_text text.now }
    ensures holds { IsTrue result ↔ IsLinkText text.now }
{
    !text.is_empty() && text.len() <= 1024 && are_plain(text)
}

/// What a link can't say is a bad path.
fn link_text(alloc: Global, text: &[u8]) -> Result<(), OperandNo>
    ensures gives { free_in is_free result ≡ false → result ≡ linking.link_text text.now }
    ensures holds { IsOk result → IsLinkText text.now }
{
    if is_link_text(text) {
        Ok(())
    } else {
        Err(fault(alloc, text, Reason::BadPath))
    }
}

/// Removes a file, where no link is.
fn clear_other<V: View>(
    alloc: Global,
    target: &Operand,
    desk: &mut Desk<V>,
) -> Result<(), OperandNo>
    ensures { (d : Done) → Does is_free V.tells desk.old desk.new d d result
        (clear_other target.now) }
{
    match target.tried(alloc, desk.kind(&target.path))? {
        Kind::Absent => Ok(()),
        Kind::File => target.tried(alloc, desk.remove(&target.path)),
        Kind::Dir => Ok(()),
        Kind::Link => Ok(()),
    }
}

/// Removes a link or a file, so that a link can be made there.
pub(crate) fn clear<V: View>(
    alloc: Global,
    target: &Operand,
    desk: &mut Desk<V>,
) -> Result<(), OperandNo>
    ensures { (d : Done) → Does is_free V.tells desk.old desk.new d d result (clear target.now) }
{
    match target.tried(alloc, desk.link(&target.path))? {
        Some(_text) => target.tried(alloc, desk.remove(&target.path)),
        None => clear_other(alloc, target, desk),
    }
}

fn named_in(
    alloc: Global,
    text: &[u8],
    operand: &Operand,
    path: &Path,
) -> Result<Operand, OperandNo>
    ensures { free_in is_free result ≡ false →
        result ≡ linking.place_in text.now operand.now (Ok path.now) }
{
    let _text = path.text();
    match path.last() {
        None => Err(fault(alloc, text, Reason::BadPath)),
        Some(last) => operand.child(alloc, last),
    }
}

/// Where a link goes that is named by an operand of this kind: in a directory it gets the last name
/// of what it says.
fn link_place(
    alloc: Global,
    cwd: &Path,
    text: &[u8],
    operand: Operand,
    kind: Kind,
) -> Result<Operand, OperandNo>
    ensures { free_in is_free result ≡ false →
        result ≡ linking.link_place cwd.now text.now operand kind }
{
    match kind {
        Kind::Dir => {
            let path = located(alloc, cwd, text)?;
            named_in(alloc, text, &operand, &path)
        }
        Kind::Absent | Kind::File | Kind::Link => Ok(operand),
    }
}

fn clear_if<V: View>(
    alloc: Global,
    force: bool,
    target: &Operand,
    desk: &mut Desk<V>,
) -> Result<(), OperandNo>
    ensures { (d : Done) → Does is_free V.tells desk.old desk.new d d result
        (clear_if force target.now) }
{
    if force {
        clear(alloc, target, desk)
    } else {
        Ok(())
    }
}

/// ln: makes a link of this text; with `force` in place of a link or a file.
pub(crate) fn link_operand<V: View>(
    alloc: Global,
    cwd: &Path,
    force: bool,
    text: &[u8],
    name: &[u8],
    desk: &mut Desk<V>,
) -> Result<(), OperandNo>
    ensures { (d : Done) → Does is_free V.tells desk.old desk.new d d result
        (link_operand cwd.now force text.now name.now) }
{
    link_text(alloc, text)?;
    let operand = Operand::at(alloc, cwd, name)?;
    let kind = operand.tried(alloc, desk.kind(&operand.path))?;
    let target = link_place(alloc, cwd, text, operand, kind)?;
    clear_if(alloc, force, &target, desk)?;
    target.tried(alloc, desk.make_link(&target.path, text))
}

/// Writes what a link says, as a line; without one the status is 1.
fn say_link(alloc: Global, link: Option<LinkText>, done: &mut Done) -> Result<(), OperandNo>
    ensures { Works is_free done.old done.new result (says_link link) }
{
    match link {
        Some(link) => {
            let mut text = Text::from_slice(alloc, link.bytes())?;
            text.add(b"\n")?;
            Ok(write(done, 1, text)?)
        }
        None => {
            done.status = 1;
            Ok(())
        }
    }
}

/// The path that a name says, if it says one.
fn link_path(alloc: Global, cwd: &Path, name: &[u8]) -> Result<Option<Path>, NoMemory>
    ensures { IfOk result (λ p. p ≡ link_path cwd.now name.now) }
{
    match Path::read(alloc, cwd, name) {
        Ok(path) => Ok(Some(path)),
        Err(PathNo::NoMemory) => Err(NoMemory),
        Err(_) => Ok(None),
    }
}

fn link_by<V: View>(
    alloc: Global,
    name: &[u8],
    path: &Option<Path>,
    desk: &mut Desk<V>,
) -> Result<Option<LinkText>, OperandNo>
    ensures { (d : Done) → Does is_free V.tells desk.old desk.new d d result
        (link_by name.now path.now) }
{
    match path {
        Some(path) => named(alloc, name, desk.link(path)),
        None => Ok(None),
    }
}

/// readlink: writes what the link of this name says.
pub(crate) fn read_link<V: View>(
    alloc: Global,
    cwd: &Path,
    name: &[u8],
    desk: &mut Desk<V>,
    done: &mut Done,
) -> Result<(), OperandNo>
    ensures { Does is_free V.tells desk.old desk.new done.old done.new result
        (read_link cwd.now name.now) }
{
    let path = link_path(alloc, cwd, name)?;
    let link = link_by(alloc, name, &path, desk)?;
    say_link(alloc, link, done)
}
