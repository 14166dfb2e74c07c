//! ls, of one operand.
ghost use Rattle.std.specs.Prelude.{◌≡◌, ◌++◌, IfOk};
ghost use Rattle.em_view.specs.Steps.{Does, Works};
ghost use Rattle.em_utility.specs.Operands.{is_free};
ghost use Rattle.em_fileutil.specs.Listing.{prints, line, is_hidden, shows, heading, shown, list_text, list_directory, list_operand};

use crate::operand::Operand;
use em_base::{NoMemory, Text};
use em_tree::{Kind, NameList};
use em_utility::{OperandNo, write};
use em_view::{Desk, Done, FileNo, View};
use std::alloc::Global;

/// What ls shows.
#[derive(Clone, Copy, Debug, PartialEq, Eq)]
pub(crate) struct Listing {
    /// `-a`: also the names that begin with a dot.
    pub(crate) all: bool,
    /// `-d`: a directory itself, and not its names.
    pub(crate) itself: bool,
    /// Whether a directory's names stand under its own.
    pub(crate) headed: bool,
}

/// Writes a text to the output.
fn print(done: &mut Done, text: Text) -> Result<(), OperandNo>
    ensures { Works is_free done.old done.new result (prints text) }
{
    Ok(write(done, 1, text)?)
}

fn line(alloc: Global, name: &[u8]) -> Result<Text, NoMemory>
    ensures { IfOk result (λ t. t ≡ line name.now) }
{
    let mut text = Text::from_slice(alloc, name)?;
    text.add(b"\n")?;
    Ok(text)
}

fn is_hidden(name: &[u8]) -> bool
    ensures { result ≡ is_hidden name.now }
{
    name.first().is_some_and(|b| *b == b'.')
}

fn shows(how: Listing, name: &[u8]) -> bool
    ensures { result ≡ shows how name.now }
{
    how.all || !is_hidden(name)
}

fn heading(alloc: Global, how: Listing, name: &[u8]) -> Result<Text, NoMemory>
    ensures { IfOk result (λ t. t ≡ heading how name.now) }
{
    let mut text = Text::new(alloc);
    if how.headed {
        text.add(name)?;
        text.add(b":\n")?;
    }
    Ok(text)
}

/// The text with a line of this name behind it, if it is shown.
fn with_line(how: Listing, text: Text, name: &[u8]) -> Result<Text, NoMemory>
    ensures { IfOk result (λ t. t ≡ text ++ shown how name.now) }
{
    let mut text = text;
    if shows(how, name) {
        text.add(name)?;
        text.add(b"\n")?;
    }
    Ok(text)
}

/// The names of a directory, one a line.
fn list_text(alloc: Global, how: Listing, name: &[u8], inside: &[Text]) -> Result<Text, NoMemory>
    ensures { IfOk result (λ t. t ≡ list_text how name.now inside.now) }
{
    let mut text = heading(alloc, how, name)?;
    for entry in inside {
        text = with_line(how, text, entry.bytes())?;
    }
    Ok(text)
}

/// Writes the operand's own name.
fn list_itself(alloc: Global, operand: &Operand, done: &mut Done) -> Result<(), OperandNo>
    ensures { Works is_free done.old done.new result (prints (line operand.now.name)) }
{
    let text = line(alloc, operand.name.bytes())?;
    print(done, text)
}

/// Writes the names in a directory.
fn print_names(
    alloc: Global,
    how: Listing,
    operand: &Operand,
    inside: &NameList,
    done: &mut Done,
) -> Result<(), OperandNo>
    ensures { Works is_free done.old done.new result (prints
        (list_text how operand.now.name inside.now)) }
{
    let text = list_text(alloc, how, operand.name.bytes(), inside.names())?;
    print(done, text)
}

fn list_directory<V: View>(
    alloc: Global,
    how: Listing,
    operand: &Operand,
    desk: &mut Desk<V>,
    done: &mut Done,
) -> Result<(), OperandNo>
    ensures { Does is_free V.tells desk.old desk.new done.old done.new result
        (list_directory how operand.now) }
{
    let inside = operand.there(alloc, desk.names(&operand.path))?;
    print_names(alloc, how, operand, &inside, done)
}

/// Lists an operand: a directory's names, or the operand itself.
pub(crate) fn list_operand<V: View>(
    alloc: Global,
    how: Listing,
    operand: &Operand,
    desk: &mut Desk<V>,
    done: &mut Done,
) -> Result<(), OperandNo>
    ensures { Does is_free V.tells desk.old desk.new done.old done.new result
        (list_operand how operand.now) }
{
    match operand.tried(alloc, desk.kind(&operand.path))? {
        Kind::Absent => Err(operand.told(alloc, FileNo::Absent)),
        Kind::Link => Err(operand.told(alloc, FileNo::Absent)),
        Kind::File => list_itself(alloc, operand, done),
        Kind::Dir => {
            if how.itself {
                list_itself(alloc, operand, done)
            } else {
                list_directory(alloc, how, operand, desk, done)
            }
        }
    }
}
