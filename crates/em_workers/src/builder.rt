//! The build.
ghost use Rattle.std.specs.Prelude.{◌≡◌, ◌<◌, ◌≤◌, ◌^◌, ℕ, [], true, All, IfOk, length, slice_index_or};
ghost use Rattle.std.specs.List.{AllZip};
ghost use Rattle.em_engine.specs.Fronts.{AreNumbered};
ghost use Rattle.em_workers.specs.Builds.{Builds};
ghost use Rattle.em_workers.specs.Printing.{faults_after};

use crate::commit::rerun_each;
use crate::gate::Gate;
use crate::no::BuildNo;
use crate::phases::commit_in_phases;
use em_base::{NoMemory, Seq};
use em_engine::{Front, Note};
use em_host::Host;
use em_run::{Spec, Work};
use em_tree::State;
use std::alloc::Global;
use std::sync::Wait;
use std::thread::Threads;

/// What a build comes to.
#[derive(Drop)]
pub struct Built {
    /// What the jobs leave.
    pub state: State,
    /// One for each job that was run, in order.
    pub notes: Seq<Note>,
    /// The fuel of each job that was run, in order.
    pub fuel: Seq<u64>,
}

/// Copies of the specs, for the workers: as many, and each equal to the one at its place.
fn copies<S: Spec>(alloc: Global, specs: &[S]) -> Result<Vec<S>, NoMemory>
    ensures { IfOk result
        (λ all. AllZip (λ spec copy. S.eq copy spec ≡ true) specs.now all.items) }
{
    let mut all = Vec::with_capacity(alloc, specs.len())?;
    for spec in specs {
        all.push(spec.copy(alloc)?)?;
    }
    Ok(all)
}

/// Builds with one worker: it runs each job on the front's own state, and no board is made.
fn build_alone<S: Spec, W: Work<S>, G: Gate, H: Host>(
    alloc: Global,
    start: State,
    specs: Seq<S>,
    w: &W,
    gate: &G,
    host: &mut H,
) -> Result<Built, BuildNo>
    requires bare { start.outcomes ≡ [] }
    requires few { length specs < 2 ^ 32 }
    requires numbered { AreNumbered S.job_of specs }
    ensures builds { Builds S.makes S.ends_after start specs 1 result (H.told host.old)
        (H.told host.new) }
    ensures faults { H.faults host.new ≡ faults_after result (H.faults host.old) }
{
    let mut front = Front::new(alloc, start, specs)?;
    let notes = rerun_each(alloc, &mut front, w, gate, host)?;
    let (state, fuel) = front.close();
    let fuel = Seq::from_vec(fuel);
    Ok(Built { state, notes, fuel })
}

/// Builds with workers beside the committer.
fn build_beside<
    R: Threads + Wait + Sync,
    S: Spec + Send + Sync,
    W: Work<S> + Sync,
    G: Gate + Sync,
    H: Host,
>(
    rt: &R,
    alloc: Global,
    start: State,
    specs: Seq<S>,
    waits: Seq<Seq<u32>>,
    workers: u32,
    w: &W,
    gate: &G,
    host: &mut H,
) -> Result<Built, BuildNo>
    requires workers { 1 < workers }
    requires bare { start.outcomes ≡ [] }
    requires numbered { AreNumbered S.job_of specs }
    requires few { length specs < 2 ^ 32 }
    requires waits { length waits ≡ length specs }
    requires lower { (j : ℕ) → All (λ k. k < j) (slice_index_or waits j []) }
    ensures builds { Builds S.makes S.ends_after start specs workers result (H.told host.old)
        (H.told host.new) }
    ensures faults { H.faults host.new ≡ faults_after result (H.faults host.old) }
{
    let theirs = copies(alloc, specs.items())?;
    let mut front = Front::new(alloc, start, specs)?;
    let notes = commit_in_phases(
        rt,
        alloc,
        theirs.as_slice(),
        waits.items(),
        workers - 1,
        &mut front,
        w,
        gate,
        host,
    )?;
    let (state, fuel) = front.close();
    let fuel = Seq::from_vec(fuel);
    Ok(Built { state, notes, fuel })
}

/// Builds: runs the jobs so that all that is printed, the state and the fuel are those of the
/// serial run, with so many workers, of which one is the committer. `waits` has of each job those
/// that are to end before it is run ahead. Job i has the number i, and waits for jobs below it. The
/// notes tell of each job in how many runs it came to be committed, and why in two; with one worker
/// each is run once.
///
/// An error comes only where a call on the host failed, or memory ran out; then the outputs of the
/// jobs that were committed were printed, but perhaps not all of the last one's.
///
/// More workers begin beside the committer, at first for a few jobs. It goes on alone where the
/// jobs that were committed took little fuel, since such jobs gain nothing from workers, and has
/// workers begin again where jobs get long. While a worker has the next job, and all others are
/// busy, the committer runs another job.
///
/// Besides the runs it takes steps for each job and each of its waits, a search for each change,
/// and with more than one worker for each question as the board's versions take, where an answer
/// differs a search in what each committed job changed, and ten times at most steps for each job,
/// wait and node of the tree.
pub fn build<
    R: Threads + Wait + Sync,
    S: Spec + Send + Sync,
    W: Work<S> + Sync,
    G: Gate + Sync,
    H: Host,
>(
    rt: &R,
    alloc: Global,
    start: State,
    specs: Seq<S>,
    waits: Seq<Seq<u32>>,
    workers: u32,
    w: &W,
    gate: &G,
    host: &mut H,
) -> Result<Built, BuildNo>
    requires workers { (1 ≤ workers) × (workers ≤ 64) }
    requires bare { start.outcomes ≡ [] }
    requires numbered { AreNumbered S.job_of specs }
    requires few { length specs < 2 ^ 32 }
    requires waits { length waits ≡ length specs }
    requires lower { (j : ℕ) → All (λ k. k < j) (slice_index_or waits j []) }
    ensures builds { Builds S.makes S.ends_after start specs workers result (H.told host.old)
        (H.told host.new) }
    ensures faults { H.faults host.new ≡ faults_after result (H.faults host.old) }
{
    if workers == 1 {
        return build_alone(alloc, start, specs, w, gate, host);
    }
    build_beside(rt, alloc, start, specs, waits, workers, w, gate, host)
}
