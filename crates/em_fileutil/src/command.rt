//! The file utilities as commands.
ghost use Rattle.std.specs.Prelude.{◌≡◌, ◌∷◌, [], codes, IfOk, if◌then◌else◌};
ghost use Rattle.em_view.specs.Ends.{is_want};
ghost use Rattle.em_view.specs.Performs.{Performs};
ghost use Rattle.em_view.specs.Steps.{Does, Works};
ghost use Rattle.em_utility.specs.Options.{is_in};
ghost use Rattle.em_utility.specs.Operands.{is_free};
ghost use Rattle.em_fileutil.specs.Table.{row_of, utility_of};
ghost use Rattle.em_fileutil.specs.Utilities as utilities;
ghost use Rattle.em_fileutil.specs.Utilities.{lacking, some, last, front, copy_all, copy, remove, list, exceeding, link_two, link, read_one, run, utility_by, utility_for};

use crate::act::{Act, for_each};
use crate::copy::{Manner, target_at};
use crate::link::{link_operand, read_link};
use crate::list::Listing;
use crate::remove::Removal;
use crate::table::{FileUtility, UtilityRow, utility_of};
use em_base::{Construct, NoMemory, Seq, Text};
use em_path::Path;
use em_utility::{OperandNo, Options, Reason, begun, fail, read_options, settle};
use em_view::{Desk, Done, ExecNo, View};
use std::alloc::Global;

/// Writes that an operand is missing.
fn missing(alloc: Global, utility: &[u8], done: &mut Done) -> Result<(), ExecNo>
    ensures { Works is_want done.old done.new result (lacking utility.now) }
{
    Ok(fail(alloc, done, utility, b"", Reason::MissingOperand)?)
}

fn last(operands: &[Text]) -> &[u8]
    ensures { result.now ≡ last operands.now }
{
    match operands.last() {
        Some(operand) => operand.bytes(),
        None => &[],
    }
}

fn front(operands: &[Text]) -> &[Text]
    ensures { result.now ≡ front operands.now }
{
    operands
        .get(..operands.len().saturating_sub(1))
        .unwrap_or(&[])
}

/// Copies or moves all operands but the last one to the last one.
fn copy_all<V: View>(
    alloc: Global,
    utility: &[u8],
    manner: Manner,
    cwd: &Path,
    operands: &[Text],
    desk: &mut Desk<V>,
    done: &mut Done,
) -> Result<(), OperandNo>
    ensures { Does is_free V.tells desk.old desk.new done.old done.new result
        (copy_all utility.now manner cwd.now operands.now) }
{
    let sources = front(operands);
    let target = target_at(alloc, cwd, sources.len() > 1, last(operands), desk)?;
    let act = Act::Copy(manner, target);
    Ok(for_each(alloc, utility, &act, cwd, sources, desk, done)?)
}

fn copy<V: View>(
    alloc: Global,
    utility: &[u8],
    manner: Manner,
    cwd: &Path,
    operands: &[Text],
    desk: &mut Desk<V>,
    done: &mut Done,
) -> Result<(), ExecNo>
    ensures { Does is_want V.tells desk.old desk.new done.old done.new result
        (copy utility.now manner cwd.now operands.now) }
{
    if operands.len() < 2 {
        return missing(alloc, utility, done);
    }
    let given = copy_all(alloc, utility, manner, cwd, operands, desk, done);
    settle(alloc, utility, given, done)
}

/// Does the same for one operand after another, of which there must be one.
fn for_some<V: View>(
    alloc: Global,
    utility: &[u8],
    act: &Act,
    cwd: &Path,
    operands: &[Text],
    desk: &mut Desk<V>,
    done: &mut Done,
) -> Result<(), ExecNo>
    ensures { Does is_want V.tells desk.old desk.new done.old done.new result
        (some utility.now operands.now
        (utilities.for_each utility.now act.now cwd.now operands.now)) }
{
    if operands.is_empty() {
        return missing(alloc, utility, done);
    }
    for_each(alloc, utility, act, cwd, operands, desk, done)
}

fn remove<V: View>(
    alloc: Global,
    utility: &[u8],
    how: Removal,
    cwd: &Path,
    operands: &[Text],
    desk: &mut Desk<V>,
    done: &mut Done,
) -> Result<(), ExecNo>
    ensures { Does is_want V.tells desk.old desk.new done.old done.new result
        (remove utility.now how cwd.now operands.now) }
{
    if how.force {
        for_each(alloc, utility, &Act::Remove(how), cwd, operands, desk, done)
    } else {
        for_some(alloc, utility, &Act::Remove(how), cwd, operands, desk, done)
    }
}

/// The working directory, as an operand.
fn here(alloc: Global) -> Result<Seq<Text>, NoMemory>
    ensures { IfOk result (λ os. os ≡ codes "." ∷ []) }
{
    let mut operands = Seq::new(alloc);
    operands.push(Text::from_slice(alloc, b".")?)?;
    Ok(operands)
}

fn list<V: View>(
    alloc: Global,
    utility: &[u8],
    how: Listing,
    cwd: &Path,
    operands: &[Text],
    desk: &mut Desk<V>,
    done: &mut Done,
) -> Result<(), ExecNo>
    ensures { Does is_want V.tells desk.old desk.new done.old done.new result
        (list utility.now how cwd.now operands.now) }
{
    let act = Act::ListDirectory(how);
    if operands.is_empty() {
        let here = here(alloc)?;
        return for_each(alloc, utility, &act, cwd, here.items(), desk, done);
    }
    for_each(alloc, utility, &act, cwd, operands, desk, done)
}

/// Writes that there is an operand too many.
fn extra(alloc: Global, utility: &[u8], done: &mut Done) -> Result<(), ExecNo>
    ensures { Works is_want done.old done.new result (exceeding utility.now) }
{
    Ok(fail(alloc, done, utility, b"", Reason::ExtraOperand)?)
}

fn link_two<V: View>(
    alloc: Global,
    utility: &[u8],
    force: bool,
    cwd: &Path,
    operands: &[Text],
    desk: &mut Desk<V>,
    done: &mut Done,
) -> Result<(), ExecNo>
    ensures { Does is_want V.tells desk.old desk.new done.old done.new result
        (link_two utility.now force cwd.now operands.now) }
{
    match operands {
        [text, name] => {
            let given = link_operand(alloc, cwd, force, text.bytes(), name.bytes(), desk);
            settle(alloc, utility, given, done)
        }
        [_, _, _, ..] => extra(alloc, utility, done),
        _ => missing(alloc, utility, done),
    }
}

/// The construct under which ln without `-s` is refused.
fn command(alloc: Global, utility: &[u8]) -> Result<Construct, NoMemory>
    ensures { IfOk result (λ c. c ≡ Construct.Command utility.now) }
{
    Ok(Construct::Command(Text::from_slice(alloc, utility)?))
}

fn link<V: View>(
    alloc: Global,
    utility: &[u8],
    options: &Options,
    cwd: &Path,
    operands: &[Text],
    desk: &mut Desk<V>,
    done: &mut Done,
) -> Result<(), ExecNo>
    ensures { Does is_want V.tells desk.old desk.new done.old done.new result
        (link utility.now (is_in options.now.letters) cwd.now operands.now) }
{
    if options.has(b's') {
        let force = options.has(b'f');
        link_two(alloc, utility, force, cwd, operands, desk, done)
    } else {
        Err(ExecNo::Refused(command(alloc, utility)?))
    }
}

fn read_one<V: View>(
    alloc: Global,
    utility: &[u8],
    cwd: &Path,
    operands: &[Text],
    desk: &mut Desk<V>,
    done: &mut Done,
) -> Result<(), ExecNo>
    ensures { Does is_want V.tells desk.old desk.new done.old done.new result
        (read_one utility.now cwd.now operands.now) }
{
    match operands {
        [] => missing(alloc, utility, done),
        [name] => {
            let given = read_link(alloc, cwd, name.bytes(), desk, done);
            settle(alloc, utility, given, done)
        }
        _ => extra(alloc, utility, done),
    }
}

fn copy_manner(recursive: bool) -> Manner
    ensures { result ≡ (if recursive then Manner.CopyTree else Manner.Copy) }
{
    if recursive {
        Manner::CopyTree
    } else {
        Manner::Copy
    }
}

/// Does what a utility does with its options and operands.
fn run<V: View>(
    alloc: Global,
    entry: &UtilityRow,
    options: &Options,
    cwd: &Path,
    operands: &[Text],
    desk: &mut Desk<V>,
    done: &mut Done,
) -> Result<(), ExecNo>
    ensures { Does is_want V.tells desk.old desk.new done.old done.new result
        (run entry.now.utility entry.now.name.now (is_in options.now.letters)
        cwd.now operands.now) }
{
    let name = entry.name;
    match entry.utility {
        FileUtility::Copy => {
            let manner = copy_manner(options.has(b'r'));
            copy(alloc, name, manner, cwd, operands, desk, done)
        }
        FileUtility::Move => copy(alloc, name, Manner::Move, cwd, operands, desk, done),
        FileUtility::Remove => {
            let how = Removal {
                force: options.has(b'f'),
                recursive: options.has(b'r'),
            };
            remove(alloc, name, how, cwd, operands, desk, done)
        }
        FileUtility::MakeDirectory => {
            let act = Act::MakeDirectory(options.has(b'p'));
            for_some(alloc, name, &act, cwd, operands, desk, done)
        }
        FileUtility::RemoveDirectory => {
            for_some(
                alloc,
                name,
                &Act::RemoveDirectory,
                cwd,
                operands,
                desk,
                done,
            )
        }
        FileUtility::Touch => {
            let act = Act::Touch(!options.has(b'c'));
            for_some(alloc, name, &act, cwd, operands, desk, done)
        }
        FileUtility::ListDirectory => {
            let how = Listing {
                all: options.has(b'a'),
                itself: options.has(b'd'),
                headed: operands.len() > 1,
            };
            list(alloc, name, how, cwd, operands, desk, done)
        }
        FileUtility::MakeLink => link(alloc, name, options, cwd, operands, desk, done),
        FileUtility::ReadLink => read_one(alloc, name, cwd, operands, desk, done),
    }
}

fn utility_by<V: View>(
    alloc: Global,
    entry: &UtilityRow,
    words: &[Text],
    cwd: &Path,
    desk: &mut Desk<V>,
) -> Result<Option<Done>, ExecNo>
    ensures { Performs is_want V.tells desk.old desk.new result (utility_by
        (row_of entry.now) words.now cwd.now) }
{
    let options = read_options(alloc, entry.name, entry.letters, b"", words)?;
    let mut done = begun(alloc);
    run(
        alloc,
        entry,
        &options,
        cwd,
        options.operands(words),
        desk,
        &mut done,
    )?;
    Ok(Some(done))
}

/// The utility of this name, if it is one.
fn utility_for<V: View>(
    alloc: Global,
    name: &[u8],
    words: &[Text],
    cwd: &Path,
    desk: &mut Desk<V>,
) -> Result<Option<Done>, ExecNo>
    ensures { Performs is_want V.tells desk.old desk.new result
        (utility_for (utility_of name.now) words.now cwd.now) }
{
    match utility_of(name) {
        Some(entry) => utility_by(alloc, entry, words, cwd, desk),
        None => Ok(None),
    }
}

/// Runs the file utility that the first word names, with the words behind it, in a working
/// directory: cp, mv, rm, mkdir, rmdir, touch, ls, ln or readlink, as POSIX has them but for the
/// options, of which there are few (docs/FORMATS.md, "File utilities"). `None` comes exactly where
/// the first word names none of them, and then nothing was asked. No utility reads its input.
///
/// Of an operand's faults a line is written to stream 2, the status is then 1, and the next operand
/// is tried; where operands are missing or too many, it is 2. Errors: `Refused` by an option's
/// letter that the utility doesn't have, or by the name of `ln` without `-s`, before anything is
/// asked; `Spent` where fuel doesn't suffice for what the desk's calls cost, and then the changes
/// till then stand.
///
/// Steps for each byte that is read and put and for each name that is listed, and for each call of
/// the desk a search among the job's own changes; a file's bytes are copied once.
pub fn utility<V: View>(
    alloc: Global,
    words: &[Text],
    _input: &[u8],
    cwd: &Path,
    desk: &mut Desk<V>,
) -> Result<Option<Done>, ExecNo>
    ensures { Performs is_want V.tells desk.old desk.new result
        (utilities.utility words.now cwd.now) }
{
    match words.split_first() {
        Some((name, rest)) => utility_for(alloc, name.bytes(), rest, cwd, desk),
        None => Ok(None),
    }
}
