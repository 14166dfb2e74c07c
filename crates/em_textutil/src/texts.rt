//! Each file for itself, and the lines of all files.
ghost use Rattle.std.specs.Prelude.{◌≡◌, ◌++◌, map, IfOk, OnOk};
ghost use Rattle.std.specs.Option.{option_to_list};
ghost use Rattle.em_utility.specs.Writing.{nothing, written};
ghost use Rattle.em_lineutil.specs.Sorting.{sort_text};
ghost use Rattle.em_textutil.specs.Jobs.{names_of, shown_by, by_found, each_done, text_of, texts_of, with_fault, faults_done};

use crate::job::Filter;
use crate::source::{OperandContent, ReadOperand};
use em_base::{NoMemory, Text};
use em_lineutil::{Order, count_line, head, sort_text, tail, uniq_text};
use em_utility::{begun, fail, write};
use em_view::Done;
use std::alloc::Global;

/// The name, if it isn't the empty one of the input.
fn name_given(alloc: Global, name: &Text) -> Result<Option<Text>, NoMemory>
    ensures { IfOk result (λ n. option_to_list n ≡ names_of name.now) }
{
    if name.bytes().is_empty() {
        Ok(None)
    } else {
        Ok(Some(name.copy(alloc)?))
    }
}

/// What the filter writes of the bytes.
fn shown_by(alloc: Global, filter: &Filter, name: &Text, bytes: &[u8]) -> Result<Text, NoMemory>
    ensures { IfOk result (λ t. t ≡ shown_by filter.now name.now bytes.now) }
{
    match filter {
        Filter::Cat => Text::from_slice(alloc, bytes),
        Filter::Head(n) => Text::from_slice(alloc, head(bytes, *n)),
        Filter::Tail(n) => Text::from_slice(alloc, tail(bytes, *n)),
        Filter::Count(asked) => count_line(alloc, asked, bytes, name_given(alloc, name)?),
        Filter::Uniq(counted) => uniq_text(alloc, *counted, bytes),
    }
}

/// Writes what the filter makes of what was found, or the fault.
fn write_found(
    alloc: Global,
    utility: &[u8],
    filter: &Filter,
    source: &ReadOperand,
    done: &mut Done,
) -> Result<(), NoMemory>
    ensures { OnOk result
        (done.new ≡ by_found utility.now filter.now source.now.name source.now.found done.old) }
{
    match &source.found {
        OperandContent::Bytes(body) => {
            let text = shown_by(alloc, filter, &source.name, body.bytes())?;
            write(done, 1, text)
        }
        OperandContent::No(reason) => fail(alloc, done, utility, source.name.bytes(), *reason),
    }
}

/// Each file for itself.
pub(crate) fn each_done(
    alloc: Global,
    utility: &[u8],
    filter: &Filter,
    sources: &[ReadOperand],
) -> Result<Done, NoMemory>
    ensures { IfOk result (λ d. d ≡ each_done utility.now filter.now sources.now nothing) }
{
    let mut done = begun(alloc);
    for source in sources {
        write_found(alloc, utility, filter, source, &mut done)?;
    }
    Ok(done)
}

fn push_text<'a>(texts: &mut Vec<&'a [u8]>, found: &'a OperandContent) -> Result<(), NoMemory>
    ensures { OnOk result
        (map (λ t. t.now) texts.new.items ≡ map (λ t. t.now) texts.old.items ++ text_of found.now) }
{
    match found {
        OperandContent::Bytes(body) => {
            texts.push(body.bytes())?;
            Ok(())
        }
        OperandContent::No(_) => Ok(()),
    }
}

/// The texts that were found.
fn texts_of(alloc: Global, sources: &[ReadOperand]) -> Result<Vec<&[u8]>, NoMemory>
    ensures { IfOk result (λ v. map (λ t. t.now) v.items ≡ texts_of sources.now) }
{
    let mut texts = Vec::new(alloc);
    for source in sources {
        push_text(&mut texts, &source.found)?;
    }
    Ok(texts)
}

fn write_fault(
    alloc: Global,
    utility: &[u8],
    source: &ReadOperand,
    done: &mut Done,
) -> Result<(), NoMemory>
    ensures { OnOk result
        (done.new ≡ with_fault utility.now source.now.name source.now.found done.old) }
{
    match &source.found {
        OperandContent::Bytes(_) => Ok(()),
        OperandContent::No(reason) => fail(alloc, done, utility, source.name.bytes(), *reason),
    }
}

/// The faults alone.
pub(crate) fn faults_done(
    alloc: Global,
    utility: &[u8],
    sources: &[ReadOperand],
) -> Result<Done, NoMemory>
    ensures { IfOk result (λ d. d ≡ faults_done utility.now sources.now nothing) }
{
    let mut done = begun(alloc);
    for source in sources {
        write_fault(alloc, utility, source, &mut done)?;
    }
    Ok(done)
}

/// The lines of all files, in order.
pub(crate) fn sort_done(
    alloc: Global,
    utility: &[u8],
    order: &Order,
    sources: &[ReadOperand],
) -> Result<Done, NoMemory>
    ensures { IfOk result (λ d. d ≡ written 1 (sort_text order.now (texts_of sources.now))
        (faults_done utility.now sources.now nothing)) }
{
    let mut done = faults_done(alloc, utility, sources)?;
    let texts = texts_of(alloc, sources)?;
    write(&mut done, 1, sort_text(alloc, order, &texts)?)?;
    Ok(done)
}
