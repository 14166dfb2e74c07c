//! The committer.
ghost use Rattle.std.specs.Prelude.{◌≡◌, ◌++◌, ◌∷◌, Ok, Err, true, [], None, Some, IfOk, IfErr, OnOk, All};
ghost use Rattle.em_host.specs.Outside.{Tells};
ghost use Rattle.em_engine.specs.Fronts.{next_of};
ghost use Rattle.em_workers.specs.Builds.{IsOnce};
ghost use Rattle.em_workers.specs.Commits.{Commits, Delivers, note_in, notes_in};
ghost use Rattle.em_workers.specs.Lending.{Both};
ghost use Rattle.em_workers.specs.Printing.{print, Says, faults_after};

use crate::gate::Gate;
use crate::lender::Lender;
use crate::next::{Committed, rerun, turn};
use crate::no::BuildNo;
use crate::pace::Pace;
use crate::printing::print;
use em_base::{NoMemory, Seq};
use em_engine::{Front, Note};
use em_host::Host;
use em_run::{Spec, Work};
use em_shared::SettleNo;
use std::alloc::Global;

/// Says what a job has said, and settles it.
fn deliver<S: Spec, L: Lender<S>, H: Host>(
    lender: &mut L,
    job: u32,
    committed: Committed,
    host: &mut H,
) -> Result<(), BuildNo>
    ensures served { Both
        (Delivers (record {
          job = job;
          delta = committed.delta;
          outcome = committed.outcome;
        }) result)
        (L.told lender.old) (L.told lender.new) }
    ensures printed { Tells (Says (print committed.output) result) (H.told host.old)
        (H.told host.new) }
    ensures faults { H.faults host.new ≡ faults_after result (H.faults host.old) }
{
    let Committed {
        output,
        delta,
        outcome,
        fuel: _,
    } = committed;
    print(host, output.bytes())?;
    match lender.settle(job, delta, outcome) {
        Ok(()) => Ok(()),
        Err(SettleNo::Phase) => Ok(()),
        Err(SettleNo::NoMemory) => Err(BuildNo::NoMemory),
    }
}

/// The note, where its job was delivered.
fn noted(delivered: Result<(), BuildNo>, note: Note) -> Result<Option<Note>, BuildNo>
    ensures ok { OnOk delivered (result ≡ Ok (Some note)) }
    ensures err { IfErr delivered (λ no. result ≡ Err no) }
{
    match delivered {
        Ok(()) => Ok(Some(note)),
        Err(no) => Err(no),
    }
}

/// One note more.
pub(crate) fn pushed(notes: Seq<Note>, note: Note) -> Result<Seq<Note>, NoMemory>
    ensures { IfOk result (λ all. all ≡ notes ++ note ∷ []) }
{
    let mut all = notes;
    match all.push(note) {
        Ok(()) => Ok(all),
        Err(no) => Err(no),
    }
}

/// Commits the next job and tells how: what is lent of it, or else a run on the front's own state.
/// Its fuel goes into the pace. None where there is no next job.
pub(crate) fn commit_next<S: Spec, L: Lender<S>, W: Work<S>, G: Gate, H: Host>(
    alloc: Global,
    lender: &mut L,
    front: &mut Front<S>,
    w: &W,
    gate: &G,
    host: &mut H,
    pace: &mut Pace,
) -> Result<Option<Note>, BuildNo>
    ensures commits { Commits S.job_of S.eq S.makes S.ends_after
        (note_in result) result front.old front.new
        (L.told lender.old) (L.told lender.new) (H.told host.old) (H.told host.new) }
    ensures last { IfOk result (λ n. n ≡ None → next_of front.new ≡ None) }
    ensures faults { H.faults host.new ≡ faults_after result (H.faults host.old) }
{
    let Some(next) = front.next() else {
        return Ok(None);
    };
    let job = next.job();
    let lent = lender.lend(job);
    let (committed, note) = turn(alloc, front, lent, w, gate)?;
    pace.note(committed.fuel);
    let delivered = deliver(lender, job, committed, host);
    noted(delivered, note)
}

/// Commits the jobs that are left, in order.
fn commit_each<S: Spec, L: Lender<S>, W: Work<S>, G: Gate, H: Host>(
    alloc: Global,
    lender: &mut L,
    front: &mut Front<S>,
    w: &W,
    gate: &G,
    host: &mut H,
) -> Result<Seq<Note>, BuildNo>
    ensures commits { Commits S.job_of S.eq S.makes S.ends_after
        (notes_in result) result front.old front.new
        (L.told lender.old) (L.told lender.new) (H.told host.old) (H.told host.new) }
    ensures last { OnOk result (next_of front.new ≡ None) }
    ensures faults { H.faults host.new ≡ faults_after result (H.faults host.old) }
{
    let mut notes = Seq::new(alloc);
    let mut pace = Pace::new(0);
    while let Some(note) = commit_next(alloc, lender, front, w, gate, host, &mut pace)? {
        notes = pushed(notes, note)?;
    }
    Ok(notes)
}

/// Commits the jobs that are left, in order, up to the one that ends the run: of each it takes what
/// is lent, makes its turn, prints what it said and settles it. A job that can't be settled now is
/// passed over. It stops the lender before it returns, also after an error. Gives a note for each
/// job.
///
/// Besides the turns it takes the calls on lender and host.
pub fn commit_all<S: Spec, L: Lender<S>, W: Work<S>, G: Gate, H: Host>(
    alloc: Global,
    lender: &mut L,
    front: &mut Front<S>,
    w: &W,
    gate: &G,
    host: &mut H,
) -> Result<Seq<Note>, BuildNo>
    ensures commits { Commits S.job_of S.eq S.makes S.ends_after
        (notes_in result) result front.old front.new
        (L.told lender.old) (L.told lender.new) (H.told host.old) (H.told host.new) }
    ensures last { OnOk result (next_of front.new ≡ None) }
    ensures stopped { Both (λ a b. b.stopped ≡ true) (L.told lender.old) (L.told lender.new) }
    ensures faults { H.faults host.new ≡ faults_after result (H.faults host.old) }
{
    let notes = commit_each(alloc, lender, front, w, gate, host);
    lender.stop();
    notes
}

/// Runs the next job, commits it and says what it said. Its fuel goes into the pace. None where
/// there is no next job.
pub(crate) fn rerun_next<S: Spec, W: Work<S>, G: Gate, H: Host>(
    alloc: Global,
    front: &mut Front<S>,
    w: &W,
    gate: &G,
    host: &mut H,
    pace: &mut Pace,
) -> Result<Option<Note>, BuildNo>
    ensures commits { Commits S.job_of S.eq S.makes S.ends_after
        (note_in result) result front.old front.new
        None None (H.told host.old) (H.told host.new) }
    ensures once { All IsOnce (note_in result) }
    ensures last { IfOk result (λ n. n ≡ None → next_of front.new ≡ None) }
    ensures faults { H.faults host.new ≡ faults_after result (H.faults host.old) }
{
    let Some(next) = front.next() else {
        return Ok(None);
    };
    let job = next.job();
    let committed = rerun(alloc, front, w, gate)?;
    pace.note(committed.fuel);
    print(host, committed.output.bytes())?;
    Ok(Some(Note {
        job,
        runs: 1,
        cause: None,
    }))
}

/// Runs the jobs that are left, one after another, with nobody beside it. What each says is printed
/// before the next one runs. Gives a note for each job.
pub(crate) fn rerun_each<S: Spec, W: Work<S>, G: Gate, H: Host>(
    alloc: Global,
    front: &mut Front<S>,
    w: &W,
    gate: &G,
    host: &mut H,
) -> Result<Seq<Note>, BuildNo>
    ensures commits { Commits S.job_of S.eq S.makes S.ends_after
        (notes_in result) result front.old front.new
        None None (H.told host.old) (H.told host.new) }
    ensures once { All IsOnce (notes_in result) }
    ensures last { OnOk result (next_of front.new ≡ None) }
    ensures faults { H.faults host.new ≡ faults_after result (H.faults host.old) }
{
    let mut notes = Seq::new(alloc);
    let mut pace = Pace::new(0);
    while let Some(note) = rerun_next(alloc, front, w, gate, host, &mut pace)? {
        notes = pushed(notes, note)?;
    }
    Ok(notes)
}
