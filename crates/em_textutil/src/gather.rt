//! Reading the operands of a utility.
ghost use Rattle.std.specs.Prelude.{◌≡◌, [], IfOk};
ghost use Rattle.em_view.specs.Performs.{Performs};
ghost use Rattle.em_view.specs.Ends.{is_want};
ghost use Rattle.em_textutil.specs.Sources as sources;
ghost use Rattle.em_textutil.specs.Sources.{kept, found, found_in, is_input, input_alone, read_all};

use crate::source::{OperandContent, ReadOperand};
use em_base::{NoMemory, Seq, Text};
use em_path::Path;
use em_tree::Body;
use em_utility::{OperandNo, read};
use em_view::{Desk, ExecNo, View};
use std::alloc::Global;

/// What reading an operand gave; its fault is kept.
fn kept(given: Result<Body, OperandNo>) -> Result<OperandContent, ExecNo>
    ensures { result ≡ kept given }
{
    match given {
        Ok(body) => Ok(OperandContent::Bytes(body)),
        Err(no) => match no {
            OperandNo::Fault(_, reason) => Ok(OperandContent::No(reason)),
            OperandNo::End(no) => Err(no),
        },
    }
}

fn found<V: View>(
    alloc: Global,
    cwd: &Path,
    name: &[u8],
    desk: &mut Desk<V>,
) -> Result<OperandContent, ExecNo>
    ensures { Performs is_want V.tells desk.old desk.new result (found cwd.now name.now) }
{
    kept(read(alloc, cwd, name, desk))
}

/// The input, as what was found.
fn input_found(alloc: Global, input: &[u8]) -> Result<OperandContent, NoMemory>
    ensures { IfOk result (λ f. f ≡ OperandContent.Bytes input.now) }
{
    Ok(OperandContent::Bytes(Body::from_slice(alloc, input)?))
}

fn is_input(dashed: bool, name: &[u8]) -> bool
    ensures { result ≡ is_input dashed name.now }
{
    dashed && name == b"-".as_slice()
}

fn found_in<V: View>(
    alloc: Global,
    cwd: &Path,
    dashed: bool,
    input: &[u8],
    name: &[u8],
    desk: &mut Desk<V>,
) -> Result<OperandContent, ExecNo>
    ensures { Performs is_want V.tells desk.old desk.new result
        (found_in cwd.now dashed input.now name.now) }
{
    if is_input(dashed, name) {
        Ok(input_found(alloc, input)?)
    } else {
        found(alloc, cwd, name, desk)
    }
}

fn source(alloc: Global, name: &[u8], found: OperandContent) -> Result<ReadOperand, NoMemory>
    ensures { IfOk result (λ s. s ≡ record { name = name.now; found = found }) }
{
    Ok(ReadOperand {
        name: Text::from_slice(alloc, name)?,
        found,
    })
}

/// Reads one operand after another.
fn sources<V: View>(
    alloc: Global,
    cwd: &Path,
    dashed: bool,
    input: &[u8],
    names: &[Text],
    desk: &mut Desk<V>,
) -> Result<Seq<ReadOperand>, ExecNo>
    ensures { Performs is_want V.tells desk.old desk.new result
        (sources.sources cwd.now dashed input.now [] names.now) }
{
    let mut all = Seq::new(alloc);
    for name in names {
        let what = found_in(alloc, cwd, dashed, input, name.bytes(), desk)?;
        all.push(source(alloc, name.bytes(), what)?)?;
    }
    Ok(all)
}

/// The input alone.
fn input_alone(alloc: Global, input: &[u8]) -> Result<Seq<ReadOperand>, NoMemory>
    ensures { IfOk result (λ ss. ss ≡ input_alone input.now) }
{
    let mut all = Seq::new(alloc);
    let found = input_found(alloc, input)?;
    all.push(source(alloc, b"", found)?)?;
    Ok(all)
}

/// What the utility reads: each operand, or the input where there is none; where a dash is the
/// input, also for a `-`.
pub(crate) fn read_all<V: View>(
    alloc: Global,
    cwd: &Path,
    dashed: bool,
    input: &[u8],
    names: &[Text],
    desk: &mut Desk<V>,
) -> Result<Seq<ReadOperand>, ExecNo>
    ensures { Performs is_want V.tells desk.old desk.new result
        (read_all cwd.now dashed input.now names.now) }
{
    if names.is_empty() {
        return Ok(input_alone(alloc, input)?);
    }
    sources(alloc, cwd, dashed, input, names, desk)
}
