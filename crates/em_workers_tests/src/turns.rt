//! The committer's turns, over what is lent of a job.
ghost use Rattle.std.specs.Prelude.{IfOk, IfSome};
ghost use Rattle.em_shared.specs.Waited.{IsLent};

use super::shows::show_committed;
use em_base::NoMemory;
use em_engine::{Front, Note, Taken};
use em_run::Run;
use em_testing::{Link, LinkPlan, Linker, front_of, run_at_root, run_of, show_note};
use em_tree::{Entry, State, Usage};
use em_workers::{Committed, OpenGate, turn};
use std::alloc::{AllocError, Global};
use std::test::Fail;

/// What is lent of a job.
#[derive(Clone, Copy)]
enum Lent {
    Nothing,
    GivenUp,
    /// A run over another state, with its own usage.
    Stale,
    /// A run over the front's state, with its own usage.
    Agreeing,
    /// The same with all but the last entry of its usage.
    Short,
}

/// What is lent of the one job, its note, and what is committed.
static ROWS: [(Lent, &str); 5] = [
    (Lent::Nothing, "0 in 1 | /b made 3 / /b"),
    (Lent::GivenUp, "0 in 2 memory | /b made 3 / /b"),
    (
        Lent::Stale,
        "0 in 2 differ 1: content of /a was /a is no content after none | /b made 3 / /b",
    ),
    (Lent::Agreeing, "0 in 1 | /b made 3 / /b"),
    (
        Lent::Short,
        "0 in 2 strange 4: board none, run kind of / is Dir | /b made 3 / /b",
    ),
];

/// One job, which reads a file that isn't there.
static ONE: [(&str, &str); 1] = [("/a", "/b")];

/// A job that makes this file.
static OTHER: [(&str, &str); 1] = [("/z", "/a")];

/// A state in which the other job has made its file.
fn other_state(alloc: Global) -> Result<State, Fail> {
    let mut front = front_of(alloc, &OTHER)?;
    if front.next().is_none() {
        return Err("no job".into());
    }
    let _done = turn(alloc, &mut front, None, &Linker, &OpenGate)?;
    Ok(front.close().0)
}

/// The first entries of a usage.
fn first(alloc: Global, entries: &[Entry], count: usize) -> Result<Usage, NoMemory> {
    let mut asked = Usage::new(alloc);
    for entry in entries.iter().take(count) {
        let copy = entry.copy(alloc)?;
        asked.push(copy)?;
    }
    Ok(asked)
}

/// A run, with so many entries of its usage.
pub(super) fn run_lent(
    alloc: Global,
    run: Run<Link>,
    count: usize,
) -> Result<Option<Taken<Link>>, NoMemory>
    ensures { IfOk result (λ t. IfSome t IsLent) }
{
    let entries = run.usage().entries(alloc)?;
    let asked = first(alloc, entries.as_slice(), count)?;
    Ok(Some(Taken::Run(run, asked)))
}

/// The one job's run over a state in which the file that it reads is there.
fn stale(alloc: Global) -> Result<Option<Taken<Link>>, Fail>
    ensures { IfOk result (λ t. IfSome t IsLent) }
{
    let state = other_state(alloc)?;
    let run = run_of(alloc, &ONE, 0, &state)?;
    Ok(run_lent(alloc, run, 5)?)
}

/// The run of the first job over a root alone, with so many entries of its usage.
fn agreeing(alloc: Global, plan: LinkPlan<'_>, count: usize) -> Result<Option<Taken<Link>>, Fail>
    ensures { IfOk result (λ t. IfSome t IsLent) }
{
    let run = run_at_root(alloc, plan, 0)?;
    Ok(run_lent(alloc, run, count)?)
}

fn taken_of(alloc: Global, row: Lent) -> Result<Option<Taken<Link>>, Fail>
    ensures { IfOk result (λ t. IfSome t IsLent) }
{
    match row {
        Lent::Nothing => Ok(None),
        Lent::GivenUp => Ok(Some(Taken::GivenUp)),
        Lent::Stale => stale(alloc),
        Lent::Agreeing => agreeing(alloc, &ONE, 5),
        Lent::Short => agreeing(alloc, &ONE, 4),
    }
}

/// What is committed of the next job, and its note.
fn turn_of(
    alloc: Global,
    front: &mut Front<Link>,
    taken: Option<Taken<Link>>,
) -> Result<(Committed, Note), Fail>
    requires { IfSome taken IsLent }
{
    if front.next().is_none() {
        return Err("no job".into());
    }
    match turn(alloc, front, taken, &Linker, &OpenGate) {
        Ok(done) => Ok(done),
        Err(no) => Err(no.into()),
    }
}

/// The note, and what was committed.
fn show_turn(log: &mut String, committed: &Committed, note: &Note) -> Result<(), AllocError> {
    show_note(log, note)?;
    log.push_str(" | ")?;
    show_committed(log, committed)
}

/// What is committed of the one job.
fn play(alloc: Global, row: Lent, log: &mut String) -> Result<(), Fail> {
    let mut front = front_of(alloc, &ONE)?;
    let taken = taken_of(alloc, row)?;
    let (committed, note) = turn_of(alloc, &mut front, taken)?;
    Ok(show_turn(log, &committed, &note)?)
}

fn log_of(alloc: Global, row: Lent) -> Result<String, Fail> {
    let mut log = String::new(alloc);
    play(alloc, row, &mut log)?;
    Ok(log)
}

#[test]
fn a_turn_commits_the_same_whatever_is_lent(rt: HostRuntime) -> Result<(), Fail> {
    for (row, wanted) in &ROWS {
        let log = log_of(rt.alloc(), *row)?;
        assert_eq!(rt; log.as_str(), *wanted);
    }
    Ok(())
}
