//! What the committer does with one job.
ghost use Rattle.std.specs.Prelude.{◌≡◌, true, IfOk, IfSome, IsSome, IsSomeAnd, OnErr, slice_get};
ghost use Rattle.em_tree.specs.Answers.{Agrees};
ghost use Rattle.em_engine.specs.Fronts.{next_of};
ghost use Rattle.em_shared.specs.Waited.{IsLent};
ghost use Rattle.em_workers.specs.Turns as turns;
ghost use Rattle.em_workers.specs.Turns.{IsCommitted, IsFound, IsNote};

use crate::gate::{Gate, GatedView};
use em_base::{NoMemory, Text};
use em_engine::{Cause, Front, Note, Taken, Verdict};
use em_run::{Run, Spec, Work};
use em_tree::{Delta, Entry, Outcome, Usage};
use em_view::PlainView;
use std::alloc::Global;

/// What was committed of a job.
#[derive(Drop)]
pub struct Committed {
    pub output: Text,
    pub delta: Delta,
    pub outcome: Outcome,
    /// The units of fuel that it took.
    pub fuel: u64,
}

/// Commits a run of the next job.
fn commit_run<S: Spec>(
    alloc: Global,
    front: &mut Front<S>,
    run: Run<S>,
) -> Result<Committed, NoMemory>
    requires next { IsSomeAnd (next_of front.old) (λ next. S.eq run.spec next ≡ true) }
    requires agrees { Agrees front.old.state run.usage }
    ensures committed { IfOk result (λ c. IfSome (next_of front.old) (λ next.
        IsCommitted S.makes S.ends_after front.old front.new next c)) }
    ensures err { OnErr result (front.new ≡ front.old) }
{
    let delta = run.delta().copy()?;
    let outcome = run.outcome().copy(alloc)?;
    let fuel = run.fuel();
    match front.commit(run) {
        Ok(output) => Ok(Committed {
            output,
            delta,
            outcome,
            fuel,
        }),
        Err(_) => Err(NoMemory),
    }
}

/// Runs the next job whole, on the front's own state, and commits it. After want of memory the
/// front is as before. Besides the run it takes a search for each path that the run changes.
pub fn rerun<S: Spec, W: Work<S>, G: Gate>(
    alloc: Global,
    front: &mut Front<S>,
    w: &W,
    gate: &G,
) -> Result<Committed, NoMemory>
    requires { IsSome (next_of front.old) }
    ensures committed { IfOk result (λ c. IfSome (next_of front.old) (λ next.
        IsCommitted S.makes S.ends_after front.old front.new next c)) }
    ensures err { OnErr result (front.new ≡ front.old) }
{
    let Some(next) = front.next() else {
        return Err(NoMemory);
    };
    let view = GatedView::new(PlainView::new(front.state()), gate, 0, next.job());
    let run = w.run(alloc, next, view)?;
    commit_run(alloc, front, run)
}

/// The entry's answer and what it is now.
fn differ<S: Spec>(
    alloc: Global,
    front: &Front<S>,
    place: usize,
    entry: &Entry,
) -> Result<Cause, NoMemory>
    ensures { IfOk result
        (λ cause. cause ≡ turns.differ front.now.state front.now.deltas place entry.now) }
{
    Ok(Cause::Differ {
        place,
        question: entry.question.copy()?,
        recorded: entry.answer.copy(alloc)?,
        now: front.state().answer(alloc, &entry.question)?,
        after: front.last_change(&entry.question),
    })
}

fn entry_at(alloc: Global, usage: &Usage, place: usize) -> Result<Option<Entry>, NoMemory>
    ensures { IfOk result (λ e. e ≡ slice_get usage.now place) }
{
    let entries = usage.entries(alloc)?;
    match entries.get(place) {
        Some(entry) => Ok(Some(entry.copy(alloc)?)),
        None => Ok(None),
    }
}

/// Why the run isn't what the next job makes of the front's state; `None` where it is.
fn cause_of<S: Spec>(
    alloc: Global,
    front: &Front<S>,
    run: &Run<S>,
    asked: &Usage,
    verdict: Verdict,
) -> Result<Option<Cause>, NoMemory>
    ensures { IfOk result (λ cause. cause
        ≡ turns.cause_of front.now.state front.now.deltas run.now asked.now verdict) }
{
    Ok(match verdict {
        Verdict::Same => None,
        Verdict::Foreign => Some(Cause::Foreign),
        Verdict::Strange { place } => Some(Cause::Strange {
            place,
            board: entry_at(alloc, asked, place)?,
            run: entry_at(alloc, run.usage(), place)?,
        }),
        Verdict::Differ { place } => match entry_at(alloc, run.usage(), place)? {
            Some(entry) => Some(differ(alloc, front, place, &entry)?),
            None => None,
        },
    })
}

/// Runs the job again of which this run was found, and says why.
fn rerun_for<S: Spec, W: Work<S>, G: Gate>(
    alloc: Global,
    front: &mut Front<S>,
    run: &Run<S>,
    asked: &Usage,
    verdict: Verdict,
    w: &W,
    gate: &G,
) -> Result<(Committed, Option<Cause>), NoMemory>
    requires { IsSome (next_of front.old) }
    ensures committed { IfOk result (λ r. IfSome (next_of front.old) (λ next.
        IsCommitted S.makes S.ends_after front.old front.new next r.0)) }
    ensures cause { IfOk result (λ r. r.1
        ≡ turns.cause_of front.old.state front.old.deltas run.now asked.now verdict) }
    ensures err { OnErr result (front.new ≡ front.old) }
{
    let cause = cause_of(alloc, front, run, asked, verdict)?;
    Ok((rerun(alloc, front, w, gate)?, cause))
}

/// Commits the run where it is what the next job makes of the front's state; else runs the job
/// again.
fn turn_run<S: Spec, W: Work<S>, G: Gate>(
    alloc: Global,
    front: &mut Front<S>,
    run: Run<S>,
    asked: &Usage,
    w: &W,
    gate: &G,
) -> Result<(Committed, Option<Cause>), NoMemory>
    requires { IsSome (next_of front.old) }
    ensures committed { IfOk result (λ r. IfSome (next_of front.old) (λ next.
        IsCommitted S.makes S.ends_after front.old front.new next r.0)) }
    ensures cause { IfOk result (λ r. IfSome (next_of front.old) (λ next.
        IsFound S.eq front.old.state front.old.deltas next run asked.now r.1)) }
    ensures err { OnErr result (front.new ≡ front.old) }
{
    let verdict = front.check(&run, asked)?;
    match verdict {
        Verdict::Same => Ok((commit_run(alloc, front, run)?, None)),
        _ => rerun_for(alloc, front, &run, asked, verdict, w, gate),
    }
}

/// The committer's work on the next job, of which this was taken: nothing, what a worker gave up,
/// or a run with what the board answered it. The run is committed where it is one of this job, its
/// usage is what it was answered and the front's state agrees with it; else the job is run again on
/// the front's own state. The note tells which, and why. After want of memory the front is as
/// before. Besides the run it takes steps for each entry of the usage, as an answer of the state
/// takes, and a search for each path that the run changes.
pub fn turn<S: Spec, W: Work<S>, G: Gate>(
    alloc: Global,
    front: &mut Front<S>,
    taken: Option<Taken<S>>,
    w: &W,
    gate: &G,
) -> Result<(Committed, Note), NoMemory>
    requires next { IsSome (next_of front.old) }
    requires ready { IfSome taken IsLent }
    ensures committed { IfOk result (λ r. IfSome (next_of front.old) (λ next.
        IsCommitted S.makes S.ends_after front.old front.new next r.0)) }
    ensures note { IfOk result (λ r. IfSome (next_of front.old) (λ next.
        IsNote S.job_of S.eq front.old.state front.old.deltas next taken r.1)) }
    ensures err { OnErr result (front.new ≡ front.old) }
{
    let job = next_job(front);
    let (committed, cause) = match taken {
        None => (rerun(alloc, front, w, gate)?, None),
        Some(Taken::Run(run, asked)) => turn_run(alloc, front, run, &asked, w, gate)?,
        Some(_) => (rerun(alloc, front, w, gate)?, Some(Cause::WantOfMemory)),
    };
    let runs = if cause.is_some() { 2 } else { 1 };
    Ok((committed, Note { job, runs, cause }))
}

/// The number of the next job; 0 where there is none.
fn next_job<S: Spec>(front: &Front<S>) -> u32
    ensures { IfSome (next_of front.now) (λ next. result ≡ S.job_of next) }
{
    match front.next() {
        Some(next) => next.job(),
        None => 0,
    }
}
