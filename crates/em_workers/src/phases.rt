//! The phases of a build with workers: the committer goes on beside them while jobs are long, and
//! alone while jobs are short.
ghost use Rattle.std.specs.Prelude.{◌≡◌, ◌<◌, ◌^◌, ◌++◌, ℕ, [], None, All, IfOk, OnOk, length, replicate, slice_index_or, true};
ghost use Rattle.em_engine.specs.declared.event.Phase.TheVariants as phase;
ghost use Rattle.em_engine.specs.Fronts.{next_of};
ghost use Rattle.em_workers.specs.Commits.{Commits, note_in, notes_in};
ghost use Rattle.em_workers.specs.Lending.{Both};
ghost use Rattle.em_workers.specs.Printing.{faults_after};

use crate::commit::{commit_next, pushed, rerun_each, rerun_next};
use crate::counted::Counted;
use crate::gate::Gate;
use crate::helping::HelpingLender;
use crate::lender::{Lender, SharedLender};
use crate::no::BuildNo;
use crate::pace::Pace;
use crate::worker::crew;
use em_base::{NoMemory, Seq};
use em_engine::{Board, Front, Note};
use em_host::Host;
use em_run::{Spec, Work};
use em_shared::{SettleNo, Shared};
use em_tree::{Delta, Outcome};
use std::alloc::Global;
use std::sync::Wait;
use std::thread::{Threads, join_mut};

/// How often workers are begun at most: there are seventeen looks at most, of which each second
/// change begins workers, and behind the first board's jobs they may begin again without one.
const ROUNDS: u32 = 10;

/// Commits the next job where workers pay and it stands on the board. None also elsewhere.
fn commit_if_long<S: Spec, L: Lender<S>, W: Work<S>, G: Gate, H: Host>(
    alloc: Global,
    lender: &mut L,
    front: &mut Front<S>,
    w: &W,
    gate: &G,
    host: &mut H,
    pace: &mut Pace,
) -> Result<Option<Note>, BuildNo>
    ensures commits { Commits S.job_of S.eq S.makes S.ends_after
        (note_in result) result front.old front.new
        (L.told lender.old) (L.told lender.new) (H.told host.old) (H.told host.new) }
    ensures faults { H.faults host.new ≡ faults_after result (H.faults host.old) }
{
    if !pace.pays_on_board() {
        return Ok(None);
    }
    commit_next(alloc, lender, front, w, gate, host, pace)
}

/// Commits jobs of the board in order while workers pay. Gives a note for each.
fn commit_while_long<S: Spec, L: Lender<S>, W: Work<S>, G: Gate, H: Host>(
    alloc: Global,
    lender: &mut L,
    front: &mut Front<S>,
    w: &W,
    gate: &G,
    host: &mut H,
    pace: &mut Pace,
) -> Result<Seq<Note>, BuildNo>
    ensures commits { Commits S.job_of S.eq S.makes S.ends_after
        (notes_in result) result front.old front.new
        (L.told lender.old) (L.told lender.new) (H.told host.old) (H.told host.new) }
    ensures faults { H.faults host.new ≡ faults_after result (H.faults host.old) }
{
    let mut notes = Seq::new(alloc);
    while let Some(note) = commit_if_long(alloc, lender, front, w, gate, host, pace)? {
        notes = pushed(notes, note)?;
    }
    Ok(notes)
}

/// The same, and stops the lender before it returns, also after an error.
fn commit_long<S: Spec, L: Lender<S>, W: Work<S>, G: Gate, H: Host>(
    alloc: Global,
    lender: &mut L,
    front: &mut Front<S>,
    w: &W,
    gate: &G,
    host: &mut H,
    pace: &mut Pace,
) -> Result<Seq<Note>, BuildNo>
    ensures commits { Commits S.job_of S.eq S.makes S.ends_after
        (notes_in result) result front.old front.new
        (L.told lender.old) (L.told lender.new) (H.told host.old) (H.told host.new) }
    ensures stopped { Both (λ a b. b.stopped ≡ true) (L.told lender.old) (L.told lender.new) }
    ensures faults { H.faults host.new ≡ faults_after result (H.faults host.old) }
{
    let notes = commit_while_long(alloc, lender, front, w, gate, host, pace);
    lender.stop();
    notes
}

/// Whether there is a next job, and it is below this one.
fn is_below<S: Spec>(front: &Front<S>, end: u32) -> bool {
    match front.next() {
        Some(next) => next.job() < end,
        None => false,
    }
}

/// Commits the next job where workers don't pay, with nobody beside: below `end` what workers have
/// left of it, and else what it makes of the front's own state. None also where workers pay.
fn commit_if_short<R: Wait, S: Spec, W: Work<S>, G: Gate, H: Host>(
    alloc: Global,
    lender: &mut SharedLender<'_, R, S>,
    end: u32,
    front: &mut Front<S>,
    w: &W,
    gate: &G,
    host: &mut H,
    pace: &mut Pace,
) -> Result<Option<Note>, BuildNo>
    ensures commits { Commits S.job_of S.eq S.makes S.ends_after
        (note_in result) result front.old front.new
        None None (H.told host.old) (H.told host.new) }
    ensures faults { H.faults host.new ≡ faults_after result (H.faults host.old) }
{
    if pace.pays() {
        return Ok(None);
    }
    if is_below(front, end) {
        return commit_next(alloc, lender, front, w, gate, host, pace);
    }
    rerun_next(alloc, front, w, gate, host, pace)
}

/// Commits jobs in order while workers don't pay, with nobody beside. So that no run is lost it
/// takes what workers have left on a board that is stopped; all jobs that they ran are below `end`.
/// Gives a note for each job.
fn commit_while_short<R: Wait, S: Spec, W: Work<S>, G: Gate, H: Host>(
    rt: &R,
    alloc: Global,
    shared: &Shared<S>,
    end: u32,
    front: &mut Front<S>,
    w: &W,
    gate: &G,
    host: &mut H,
    pace: &mut Pace,
) -> Result<Seq<Note>, BuildNo>
    ensures commits { Commits S.job_of S.eq S.makes S.ends_after
        (notes_in result) result front.old front.new
        None None (H.told host.old) (H.told host.new) }
    ensures faults { H.faults host.new ≡ faults_after result (H.faults host.old) }
{
    let mut lender = SharedLender::new(rt, shared);
    let mut notes = Seq::new(alloc);
    while let Some(note) = commit_if_short(alloc, &mut lender, end, front, w, gate, host, pace)? {
        notes = pushed(notes, note)?;
    }
    Ok(notes)
}

/// The committer beside so many workers, while jobs are long.
fn commit_beside<R: Wait, S: Spec, W: Work<S>, G: Gate, H: Host>(
    rt: &R,
    alloc: Global,
    shared: &Shared<S>,
    specs: &[S],
    workers: u32,
    front: &mut Front<S>,
    w: &W,
    counted: &Counted<'_, W>,
    gate: &G,
    host: &mut H,
    pace: &mut Pace,
) -> Result<Seq<Note>, BuildNo>
    ensures commits { Commits S.job_of S.eq S.makes S.ends_after
        (notes_in result) result front.old front.new
        None None (H.told host.old) (H.told host.new) }
    ensures faults { H.faults host.new ≡ faults_after result (H.faults host.old) }
{
    let mut lender = HelpingLender {
        rt,
        alloc,
        shared,
        specs,
        workers,
        w: counted,
        gate,
    };
    commit_long(alloc, &mut lender, front, w, gate, host, pace)
}

/// The committer, with so many workers beside it while jobs are long. They have ended when it
/// returns.
fn commit_with<
    R: Threads + Wait + Sync,
    S: Spec + Send + Sync,
    W: Work<S> + Sync,
    G: Gate + Sync,
    H: Host,
>(
    rt: &R,
    alloc: Global,
    shared: &Shared<S>,
    specs: &[S],
    workers: u32,
    front: &mut Front<S>,
    w: &W,
    counted: &Counted<'_, W>,
    gate: &G,
    host: &mut H,
    pace: &mut Pace,
) -> Result<Seq<Note>, BuildNo>
    ensures commits { Commits S.job_of S.eq S.makes S.ends_after
        (notes_in result) result front.old front.new
        None None (H.told host.old) (H.told host.new) }
    ensures faults { H.faults host.new ≡ faults_after result (H.faults host.old) }
{
    let (_, notes) = join_mut(
        rt,
        &mut || crew(rt, alloc, shared, specs, 1, workers, counted, gate),
        &mut || -> Result<Seq<Note>, BuildNo>
            ensures commits { Commits S.job_of S.eq S.makes S.ends_after (notes_in result) result
                front.entry.now front.exit.now None None (H.told host.entry.now)
                (H.told host.exit.now) }
            ensures faults { H.faults host.exit.now
                ≡ faults_after result (H.faults host.entry.now) }
        {
            commit_beside(
                rt, alloc, shared, specs, workers, front, w, counted, gate, host, pace,
            )
        },
    );
    notes
}

/// Settles a job that is committed, on a board that has it as its next one: its changes stand in
/// the board's start.
fn settle_committed<R: Wait, S: Spec>(
    rt: &R,
    alloc: Global,
    shared: &Shared<S>,
    job: u32,
    outcome: &Outcome,
) -> Result<(), NoMemory> {
    let outcome = outcome.copy(alloc)?;
    if !shared.claim_front(rt, job) {
        return Ok(());
    }
    match shared.settle(rt, job, Delta::new(alloc), outcome) {
        Err(SettleNo::NoMemory) => Err(NoMemory),
        _ => Ok(()),
    }
}

/// Copies of the lists of what each job waits for.
fn copied(alloc: Global, waits: &[Seq<u32>]) -> Result<Seq<Seq<u32>>, NoMemory>
    ensures { IfOk result (λ all. all ≡ waits.now) }
{
    let mut all = Seq::new(alloc);
    for jobs in waits {
        let items = Vec::from_slice(alloc, jobs.items())?;
        all.push(Seq::from_vec(items))?;
    }
    Ok(all)
}

/// A board of jobs that are free, which begins at the front's state.
fn board_at<S: Spec>(
    alloc: Global,
    front: &Front<S>,
    waits: &[Seq<u32>],
) -> Result<Board<S>, NoMemory>
    requires few { length waits.now < 2 ^ 32 }
    requires lower { (j : ℕ) → All (λ k. k < j) (slice_index_or waits.now j []) }
    ensures { IfOk result (λ b. b ≡ record {
      start = front.now.state;
      waits = waits.now;
      journal = [];
      phases = replicate (length waits.now) phase.Free;
    }) }
{
    let begun = front.state().copy(alloc)?;
    let waits = copied(alloc, waits)?;
    Board::new(alloc, begun, waits)
}

/// The first lists, at most so many.
fn first(waits: &[Seq<u32>], count: usize) -> &[Seq<u32>]
    requires few { length waits.now < 2 ^ 32 }
    requires lower { (j : ℕ) → All (λ k. k < j) (slice_index_or waits.now j []) }
    ensures few { length result.now < 2 ^ 32 }
    ensures lower { (j : ℕ) → All (λ k. k < j) (slice_index_or result.now j []) }
{
    let (first, _) = waits.split_at(count.min(waits.len()));
    first
}

/// A board for the jobs that are left of those with these lists: it begins at the front's state,
/// and the jobs that are committed count as settled.
fn board_for_rest<R: Wait, S: Spec>(
    rt: &R,
    alloc: Global,
    front: &Front<S>,
    waits: &[Seq<u32>],
) -> Result<Shared<S>, NoMemory>
    requires few { length waits.now < 2 ^ 32 }
    requires lower { (j : ℕ) → All (λ k. k < j) (slice_index_or waits.now j []) }
{
    let shared = Shared::new(board_at(alloc, front, waits)?);
    for (job, outcome) in (0..=u32::MAX).zip(front.state().outcomes.items()) {
        settle_committed(rt, alloc, &shared, job, outcome)?;
    }
    Ok(shared)
}

/// Some notes, and others behind them.
fn joined(notes: Seq<Note>, more: Seq<Note>) -> Result<Seq<Note>, NoMemory>
    ensures { IfOk result (λ all. all ≡ notes ++ more) }
{
    let mut all = notes;
    for note in more.into_vec() {
        all.push(note)?;
    }
    Ok(all)
}

/// Commits jobs of a board beside workers while jobs are long, and then alone while they are short.
/// It does nothing where there is no next job.
fn commit_round<
    R: Threads + Wait + Sync,
    S: Spec + Send + Sync,
    W: Work<S> + Sync,
    G: Gate + Sync,
    H: Host,
>(
    rt: &R,
    alloc: Global,
    specs: &[S],
    waits: &[Seq<u32>],
    workers: u32,
    front: &mut Front<S>,
    w: &W,
    gate: &G,
    host: &mut H,
    pace: &mut Pace,
) -> Result<Seq<Note>, BuildNo>
    requires few { length waits.now < 2 ^ 32 }
    requires lower { (j : ℕ) → All (λ k. k < j) (slice_index_or waits.now j []) }
    ensures commits { Commits S.job_of S.eq S.makes S.ends_after
        (notes_in result) result front.old front.new
        None None (H.told host.old) (H.told host.new) }
    ensures faults { H.faults host.new ≡ faults_after result (H.faults host.old) }
{
    if front.next().is_none() {
        return Ok(Seq::new(alloc));
    }
    let count = pace.begin(waits.len(), workers);
    let shared = board_for_rest(rt, alloc, front, first(waits, count))?;
    let counted = Counted::new(w);
    let notes = commit_with(
        rt, alloc, &shared, specs, workers, front, w, &counted, gate, host, pace,
    )?;
    let end = counted.end();
    let more = commit_while_short(rt, alloc, &shared, end, front, w, gate, host, pace)?;
    let all = joined(notes, more)?;
    Ok(all)
}

/// Commits all jobs that are left, in order, with so many workers beside the committer wherever
/// they pay, at first in any case. Where they pay is told by the fuel of the jobs that were
/// committed, so it is the same in each run. Gives a note for each job.
///
/// Besides the turns and the calls on the host each begin of workers takes steps for each job, each
/// of its waits and each node of the state; they begin ten times at most.
pub(crate) fn commit_in_phases<
    R: Threads + Wait + Sync,
    S: Spec + Send + Sync,
    W: Work<S> + Sync,
    G: Gate + Sync,
    H: Host,
>(
    rt: &R,
    alloc: Global,
    specs: &[S],
    waits: &[Seq<u32>],
    workers: u32,
    front: &mut Front<S>,
    w: &W,
    gate: &G,
    host: &mut H,
) -> Result<Seq<Note>, BuildNo>
    requires few { length waits.now < 2 ^ 32 }
    requires lower { (j : ℕ) → All (λ k. k < j) (slice_index_or waits.now j []) }
    ensures commits { Commits S.job_of S.eq S.makes S.ends_after
        (notes_in result) result front.old front.new
        None None (H.told host.old) (H.told host.new) }
    ensures last { OnOk result (next_of front.new ≡ None) }
    ensures faults { H.faults host.new ≡ faults_after result (H.faults host.old) }
{
    let mut pace = Pace::new(specs.len());
    let mut notes = Seq::new(alloc);
    for _ in 0..ROUNDS {
        let more = commit_round(
            rt, alloc, specs, waits, workers, front, w, gate, host, &mut pace,
        )?;
        notes = joined(notes, more)?;
    }
    let rest = rerun_each(alloc, front, w, gate, host)?;
    let all = joined(notes, rest)?;
    Ok(all)
}
