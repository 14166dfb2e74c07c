//! How far the walk is with each name.
ghost use Rattle.std.specs.Prelude.{ℕ, List, ◌≡◌, true, false, length, MatchOption, OnOk, IfOk};
ghost use Rattle.std.specs.FinMap as finmap;
ghost use Rattle.em_plan.specs.Once.{is_among, same};
ghost use Rattle.em_plan.specs.Resuming.{closing, known_in, numbers_in, open_in, opening};

use crate::numbers::Numbers;
use em_base::{NoMemory, Table, Text};
use std::alloc::Global;

/// How far the walk is with a name. A name that it hasn't met has no mark.
#[derive(Drop)]
pub struct VisitMark {
    /// Whether it is a target of a unit whose prerequisites are being visited.
    pub begun: bool,
    /// The numbers of its jobs so far.
    pub jobs: Numbers,
}

/// Whether the name is a target of a unit that is open.
pub(crate) fn is_open(marks: &Table<VisitMark>, name: &[u8]) -> bool
    ensures { result ≡ open_in marks.now name.now }
{
    match marks.get(name) {
        None => false,
        Some(mark) => mark.begun,
    }
}

/// How many jobs the name has, unless it is open: the place of its next unit.
pub(crate) fn next_place(marks: &Table<VisitMark>, name: &[u8]) -> Option<usize>
    ensures { MatchOption result
        (open_in marks.now name.now ≡ true)
        (λ place. (open_in marks.now name.now ≡ false)
        × (place ≡ length (numbers_in marks.now name.now))) }
{
    match marks.get(name) {
        None => Some(0),
        Some(mark) if mark.begun => None,
        Some(mark) => Some(mark.jobs.len()),
    }
}

/// Whether the name is open or has jobs.
pub(crate) fn is_known(marks: &Table<VisitMark>, name: &[u8]) -> bool
    ensures { result ≡ known_in marks.now name.now }
{
    marks.get(name).is_some()
}

/// The numbers of the name's jobs.
pub(crate) fn numbers<'a>(marks: &'a Table<VisitMark>, name: &[u8]) -> &'a [u32]
    ensures { result.now ≡ numbers_in marks.now name.now }
{
    match marks.get(name) {
        None => &[],
        Some(mark) => mark.jobs.items(),
    }
}

/// The numbers of the name's jobs, copied, unless it is open. One search.
pub(crate) fn closed_numbers(
    alloc: Global,
    marks: &Table<VisitMark>,
    name: &[u8],
) -> Result<Option<Numbers>, NoMemory>
    ensures { IfOk result (λ o. MatchOption o
        (open_in marks.now name.now ≡ true)
        (λ ns. (open_in marks.now name.now ≡ false) × (ns ≡ numbers_in marks.now name.now))) }
{
    match marks.get(name) {
        None => Ok(Some(Numbers::new(alloc))),
        Some(mark) if mark.begun => Ok(None),
        Some(mark) => Ok(Some(mark.jobs.copy(alloc)?)),
    }
}

/// The numbers of the name's jobs, copied.
pub(crate) fn numbers_of(
    alloc: Global,
    marks: &Table<VisitMark>,
    name: &[u8],
) -> Result<Numbers, NoMemory>
    ensures { IfOk result (λ ns. ns ≡ numbers_in marks.now name.now) }
{
    match marks.get(name) {
        None => Ok(Numbers::new(alloc)),
        Some(mark) => mark.jobs.copy(alloc),
    }
}

/// Takes the name's mark out, and gives the numbers of its jobs.
fn take_jobs(alloc: Global, marks: &mut Table<VisitMark>, name: &[u8]) -> Numbers
    ensures jobs { result ≡ numbers_in marks.old name.now }
    ensures rest { marks.new ≡ finmap.remove marks.old name.now }
{
    match marks.remove(name) {
        None => Numbers::new(alloc),
        Some(mark) => mark.jobs,
    }
}

/// Marks a target of a unit that is opened.
fn open_one(alloc: Global, marks: &mut Table<VisitMark>, name: &Text) -> Result<(), NoMemory>
    ensures { OnOk result ((q : List ℕ)
        → finmap.get marks.new q ≡ opening (same q name.now) (finmap.get marks.old q)) }
{
    let jobs = take_jobs(alloc, marks, name.bytes());
    marks.insert(name.copy(alloc)?, VisitMark { begun: true, jobs })?;
    Ok(())
}

/// Marks the targets of a unit that is opened. A search for each.
pub(crate) fn open_all(
    alloc: Global,
    marks: &mut Table<VisitMark>,
    names: &[Text],
) -> Result<(), NoMemory>
    ensures { OnOk result ((q : List ℕ)
        → finmap.get marks.new q ≡ opening (is_among names.now q) (finmap.get marks.old q)) }
{
    for name in names {
        open_one(alloc, marks, name)?;
    }
    Ok(())
}

/// Marks a target of an open unit that gets this number.
fn close_one(
    alloc: Global,
    marks: &mut Table<VisitMark>,
    number: u32,
    name: &Text,
) -> Result<(), NoMemory>
    ensures { OnOk result ((q : List ℕ)
        → finmap.get marks.new q ≡ closing number (same q name.now) (finmap.get marks.old q)) }
{
    if !is_open(marks, name.bytes()) {
        return Ok(());
    }
    let held = take_jobs(alloc, marks, name.bytes());
    let jobs = held.with(alloc, number)?;
    marks.insert(name.copy(alloc)?, VisitMark { begun: false, jobs })?;
    Ok(())
}

/// Marks the targets of an open unit that gets this number. A search for each.
pub(crate) fn close_all(
    alloc: Global,
    marks: &mut Table<VisitMark>,
    number: u32,
    names: &[Text],
) -> Result<(), NoMemory>
    ensures { OnOk result ((q : List ℕ)
        → finmap.get marks.new q ≡ closing number (is_among names.now q) (finmap.get marks.old q)) }
{
    for name in names {
        close_one(alloc, marks, number, name)?;
    }
    Ok(())
}
