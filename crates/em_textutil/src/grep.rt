//! `grep -F`
ghost use Rattle.std.specs.Prelude.{◌≡◌, ◌||◌, false, codes, map, IfOk, OnOk};
ghost use Rattle.em_utility.specs.Writing.{faulted};
ghost use Rattle.em_textutil.specs.Jobs as jobs;
ghost use Rattle.em_textutil.specs.Jobs.{front_of, shown_lines, grep_found, grep_each, has_line, grep_status};

use crate::job::Grep;
use crate::source::{OperandContent, ReadOperand};
use em_base::{NoMemory, Text};
use em_lineutil::{prefixed, selected};
use em_utility::{Reason, begun, fail, write};
use em_view::Done;
use itoa::Buffer;
use std::alloc::Global;

/// What stands before each line.
fn front_of(alloc: Global, grep: &Grep, name: &Text) -> Result<Text, NoMemory>
    ensures { IfOk result (λ t. t ≡ front_of grep.now name.now) }
{
    let mut front = Text::new(alloc);
    if grep.several {
        front.add(name.bytes())?;
        front.add(b":")?;
    }
    Ok(front)
}

/// How many lines there are, behind what stands before each line.
fn count(alloc: Global, front: Text, lines: usize) -> Result<Text, NoMemory>
    ensures { IfOk result (λ t. t ≡ jobs.count_behind front lines) }
{
    let mut text = front;
    text.add(Buffer::new().format(lines).as_bytes())?;
    text.add(b"\n")?;
    Ok(text)
}

/// What is written of the lines that were selected.
fn shown_lines(alloc: Global, grep: &Grep, name: &Text, lines: &[&[u8]]) -> Result<Text, NoMemory>
    ensures { IfOk result (λ t. t ≡ shown_lines grep.now name.now (map (λ l. l.now) lines.now)) }
{
    if grep.quiet {
        return Ok(Text::new(alloc));
    }
    let front = front_of(alloc, grep, name)?;
    if grep.counted {
        count(alloc, front, lines.len())
    } else {
        prefixed(alloc, front.bytes(), lines)
    }
}

/// Writes what is shown of the bytes, and tells whether some line was selected.
fn grep_bytes(
    alloc: Global,
    grep: &Grep,
    name: &Text,
    bytes: &[u8],
    done: &mut Done,
) -> Result<bool, NoMemory>
    ensures done { OnOk result
        (done.new ≡ grep_found grep.now name.now (OperandContent.Bytes bytes.now) done.old) }
    ensures some { IfOk result (λ some. some ≡ has_line grep.now (OperandContent.Bytes bytes.now)) }
{
    let lines = selected(alloc, &grep.search, grep.pattern.bytes(), bytes)?;
    let text = shown_lines(alloc, grep, name, &lines)?;
    write(done, 1, text)?;
    Ok(!lines.is_empty())
}

/// Writes the fault of a file.
fn grep_fault(alloc: Global, name: &Text, reason: Reason, done: &mut Done) -> Result<bool, NoMemory>
    ensures done { OnOk result (done.new ≡ faulted (codes "grep") name.now reason done.old) }
    ensures some { IfOk result (λ some. some ≡ false) }
{
    fail(alloc, done, b"grep", name.bytes(), reason)?;
    Ok(false)
}

/// Writes what was found, or the fault, and tells whether some line was selected.
fn grep_found(
    alloc: Global,
    grep: &Grep,
    source: &ReadOperand,
    done: &mut Done,
) -> Result<bool, NoMemory>
    ensures done { OnOk result
        (done.new ≡ grep_found grep.now source.now.name source.now.found done.old) }
    ensures some { IfOk result (λ some. some ≡ has_line grep.now source.now.found) }
{
    match &source.found {
        OperandContent::Bytes(body) => grep_bytes(alloc, grep, &source.name, body.bytes(), done),
        OperandContent::No(reason) => grep_fault(alloc, &source.name, *reason, done),
    }
}

fn either(one: bool, other: bool) -> bool
    ensures { result ≡ (one || other) }
{
    one || other
}

/// Writes one file after another, and tells whether some line was selected.
fn grep_each(
    alloc: Global,
    grep: &Grep,
    sources: &[ReadOperand],
    done: &mut Done,
) -> Result<bool, NoMemory>
    ensures done { OnOk result (done.new ≡ grep_each grep.now sources.now done.old) }
    ensures some { IfOk result (λ some. some ≡ jobs.some_line grep.now sources.now) }
{
    let mut some = false;
    for source in sources {
        let here = grep_found(alloc, grep, source, done)?;
        some = either(some, here);
    }
    Ok(some)
}

fn grep_status(some: bool, status: u8) -> u8
    ensures { result ≡ grep_status some status }
{
    if status != 0 {
        2
    } else if some {
        0
    } else {
        1
    }
}

/// The lines that are selected, of one file after another.
pub(crate) fn grep_done(
    alloc: Global,
    grep: &Grep,
    sources: &[ReadOperand],
) -> Result<Done, NoMemory>
    ensures { IfOk result (λ d. d ≡ jobs.grep_done grep.now sources.now) }
{
    let mut done = begun(alloc);
    let some = grep_each(alloc, grep, sources, &mut done)?;
    done.status = grep_status(some, done.status);
    Ok(done)
}
