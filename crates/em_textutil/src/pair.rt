//! `cmp`
ghost use Rattle.std.specs.Prelude.{◌≡◌, IfOk};
ghost use Rattle.em_textutil.specs.Jobs as jobs;
ghost use Rattle.em_textutil.specs.Jobs.{difference_line, compared, compared_by, muted, pair_done};

use crate::source::{OperandContent, ReadOperand};
use crate::texts::faults_done;
use em_base::{NoMemory, Seq, Text};
use em_lineutil::{Comparison, compare};
use em_utility::{begun, error_line, write};
use em_view::Done;
use itoa::Buffer;
use std::alloc::Global;

/// Where two files differ first.
fn difference_line(
    alloc: Global,
    a: &Text,
    b: &Text,
    byte: usize,
    line: usize,
) -> Result<Text, NoMemory>
    ensures { IfOk result (λ t. t ≡ difference_line a.now b.now byte line) }
{
    let mut text = a.copy(alloc)?;
    text.add(b" ")?;
    text.add(b.bytes())?;
    text.add(b" differ: char ")?;
    text.add(Buffer::new().format(byte).as_bytes())?;
    text.add(b", line ")?;
    text.add(Buffer::new().format(line).as_bytes())?;
    text.add(b"\n")?;
    Ok(text)
}

/// A command that wrote one text, with status 1.
fn said(alloc: Global, stream: u8, text: Text) -> Result<Done, NoMemory>
    ensures { IfOk result (λ d. d ≡ jobs.said stream text) }
{
    let mut done = begun(alloc);
    write(&mut done, stream, text)?;
    done.status = 1;
    Ok(done)
}

fn compared(alloc: Global, a: &Text, b: &Text, comparison: Comparison) -> Result<Done, NoMemory>
    ensures { IfOk result (λ d. d ≡ compared a.now b.now comparison) }
{
    match comparison {
        Comparison::Same => Ok(begun(alloc)),
        Comparison::Differ(byte, line) => {
            said(alloc, 1, difference_line(alloc, a, b, byte, line)?)
        }
        Comparison::FirstShort => {
            said(alloc, 2, error_line(alloc, b"cmp", a.bytes(), b"short")?)
        }
        Comparison::SecondShort => {
            said(alloc, 2, error_line(alloc, b"cmp", b.bytes(), b"short")?)
        }
    }
}

/// With status 2.
fn failed(done: Done) -> Done
    ensures { result ≡ jobs.at_status 2 done }
{
    let mut done = done;
    done.status = 2;
    done
}

fn compared_by(
    alloc: Global,
    s: &ReadOperand,
    t: &ReadOperand,
    faults: Done,
) -> Result<Done, NoMemory>
    ensures { IfOk result
        (λ d. d ≡ compared_by s.now.name s.now.found t.now.name t.now.found faults) }
{
    match &s.found {
        OperandContent::Bytes(x) => match &t.found {
            OperandContent::Bytes(y) => compared(
                alloc,
                &s.name,
                &t.name,
                compare(x.bytes(), y.bytes()),
            ),
            OperandContent::No(_) => Ok(failed(faults)),
        },
        OperandContent::No(_) => Ok(failed(faults)),
    }
}

fn pair_done(alloc: Global, sources: &[ReadOperand]) -> Result<Done, NoMemory>
    ensures { IfOk result (λ d. d ≡ pair_done sources.now) }
{
    match sources {
        [s, t] => compared_by(alloc, s, t, faults_done(alloc, b"cmp", sources)?),
        _ => Ok(begun(alloc)),
    }
}

/// Without what it wrote, if it is to be silent.
pub(crate) fn muted(alloc: Global, silent: bool, done: Done) -> Done
    ensures { result ≡ muted silent done }
{
    let mut done = done;
    if silent {
        done.pieces = Seq::new(alloc);
    }
    done
}

/// Where the two files differ.
pub(crate) fn compare_done(
    alloc: Global,
    silent: bool,
    sources: &[ReadOperand],
) -> Result<Done, NoMemory>
    ensures { IfOk result (λ d. d ≡ muted silent (pair_done sources.now)) }
{
    Ok(muted(alloc, silent, pair_done(alloc, sources)?))
}
