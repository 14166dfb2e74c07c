//! The workers.
ghost use Rattle.std.specs.Thread.{IsSync};

use crate::gate::{Gate, GatedView};
use em_engine::Claim;
use em_run::{Run, Spec, Work};
use em_shared::{Held, Shared, SharedView};
use std::alloc::Global;
use std::sync::Wait;
use std::thread::{Threads, join};

/// Publishes a run, and gives its job up where that wants memory.
fn publish<R: Wait, S: Spec>(rt: &R, shared: &Shared<S>, job: u32, run: Run<S>) {
    match shared.publish(rt, run) {
        Ok(()) => {}
        Err(Held::Phase(_)) => {}
        Err(Held::Memory(_)) => shared.give_up(rt, job),
    }
}

/// Runs a claimed job over the board's answers and publishes the run. Where the run or its
/// publication wants memory it gives the job up.
pub(crate) fn run_claimed<R: Wait, S: Spec, W: Work<S>, G: Gate>(
    rt: &R,
    alloc: Global,
    shared: &Shared<S>,
    spec: &S,
    job: u32,
    worker: u32,
    w: &W,
    gate: &G,
) {
    let view = GatedView::new(SharedView::new(rt, shared, job), gate, worker, job);
    match w.run(alloc, spec, view) {
        Ok(run) => publish(rt, shared, job, run),
        Err(_) => shared.give_up(rt, job),
    }
}

/// Claims jobs, runs them and publishes the runs, until the board is stopped or no job is free. It
/// returns also where `specs` has no spec for a job that it has claimed; whoever then waits for
/// this job waits for ever, so hand it a spec for each job of the board, each with its job's
/// number: a run of another job is handed back or published as that one's.
pub fn work<R: Wait, S: Spec, W: Work<S>, G: Gate>(
    rt: &R,
    alloc: Global,
    shared: &Shared<S>,
    specs: &[S],
    worker: u32,
    w: &W,
    gate: &G,
) {
    for _ in rt.forever() {
        let Claim::Job(job) = shared.claim_wait(rt) else {
            return;
        };
        let Some(spec) = specs.get(job as usize) else {
            return;
        };
        run_claimed(rt, alloc, shared, spec, job, worker, w, gate);
    }
}

/// So many workers beside one another, with the numbers from `first` on.
pub(crate) fn crew<
    R: Threads + Wait + Sync,
    S: Spec + Send + Sync,
    W: Work<S> + Sync,
    G: Gate + Sync,
>(rt: &R, alloc: Global, shared: &Shared<S>, specs: &[S], first: u32, count: u32, w: &W, gate: &G) {
    if count == 0 {
        return;
    }
    if count == 1 {
        work(rt, alloc, shared, specs, first, w, gate);
        return;
    }
    let half = count / 2;
    let rest = count - half;
    let middle = first.saturating_add(half);
    join(
        rt,
        ||
            requires { IsSync R.row }
        { crew(rt, alloc, shared, specs, first, half, w, gate) },
        ||
            requires { IsSync R.row }
        { crew(rt, alloc, shared, specs, middle, rest, w, gate) },
    );
}
