//! Who waits on a shared board is woken. No call tells that it waits; so where a thread is to wait
//! before it is woken, each test is made many times.
ghost use Rattle.std.specs.Thread.{IsSync};

use super::gates::{Fork, is_raised, linger};
use em_base::{NoMemory, Seq};
use em_engine::{Claim, Taken};
use em_run::Run;
use em_shared::Shared;
use em_testing::{Link, Linker, THREE, links_of, root, run_at_root, shared_from, shared_of};
use em_tree::{Delta, Outcome};
use em_workers::work;
use std::alloc::Global;
use std::sync::Wait;
use std::sync::atomic::{AtomicBool, Ordering};
use std::test::Fail;
use std::thread::{Threads, join};

/// How often each test is made.
const TIMES: u32 = 50;

/// How far the thread that waits is.
#[derive(Drop)]
struct Stages {
    /// It is about to claim a job.
    begun: AtomicBool,
    /// It has claimed one, and is about to claim another one.
    claimed: AtomicBool,
}

/// What a worker is told that claims twice.
fn claim_twice<R: Wait>(rt: &R, shared: &Shared<Link>, stages: &Stages) -> (Claim, Claim) {
    stages.begun.store(true, Ordering::SeqCst);
    let first = shared.claim_wait(rt);
    stages.claimed.store(true, Ordering::SeqCst);
    let second = shared.claim_wait(rt);
    (first, second)
}

/// Settles job 0 once the worker waits, and stops the board once it waits again. Whether all of
/// that could be done.
fn settle_and_stop<R: Wait>(
    rt: &R,
    shared: &Shared<Link>,
    stages: &Stages,
    effect: (Delta, Outcome),
) -> bool {
    let begun = is_raised(&stages.begun);
    linger();
    let settled = shared.settle(rt, 0, effect.0, effect.1).is_ok();
    let claimed = is_raised(&stages.claimed);
    linger();
    shared.stop(rt);
    begun && settled && claimed
}

/// Whether a worker that waits for job 1 gets it once job 0 is settled, and waits again until the
/// board is stopped.
fn is_woken<R: Threads + Wait + Sync>(
    rt: &R,
    shared: &Shared<Link>,
    effect: (Delta, Outcome),
) -> bool {
    let stages = Stages {
        begun: AtomicBool::new(false),
        claimed: AtomicBool::new(false),
    };
    let (claims, done) = join(
        rt,
        || claim_twice(rt, shared, &stages),
        || settle_and_stop(rt, shared, &stages, effect),
    );
    done && claims.0 == Claim::Job(1) && claims.1 == Claim::Done
}

/// What a run has changed, and how it ended.
fn effect_of(run: Run<Link>) -> (Delta, Outcome) {
    let parts = run.into_parts();
    (parts.delta, parts.outcome)
}

fn wake_worker<R: Threads + Wait + Sync>(rt: &R, alloc: Global) -> Result<bool, Fail> {
    let shared = shared_of(alloc, &THREE, true)?;
    let run = run_at_root(alloc, &THREE, 0)?;
    let is_first = shared.claim_front(rt, 0);
    Ok(is_first && is_woken(rt, &shared, effect_of(run)))
}

#[test]
fn a_worker_that_waits_is_woken(rt: HostRuntime) -> Result<(), Fail> {
    for _ in 0..TIMES {
        let woken = wake_worker(&rt, rt.alloc())?;
        assert!(rt; woken);
    }
    Ok(())
}

/// Takes what is left of job 0, and says what that is.
fn take_first<R: Wait>(rt: &R, shared: &Shared<Link>, begun: &AtomicBool) -> &'static str {
    begun.store(true, Ordering::SeqCst);
    match shared.take_wait(rt, 0) {
        Some(Taken::Run(_, _)) => "run",
        Some(_) => "given up",
        None => "none",
    }
}

/// Publishes the run, or gives its job up, once the committer waits. Whether that could be done.
fn leave_first<R: Wait>(
    rt: &R,
    shared: &Shared<Link>,
    begun: &AtomicBool,
    run: Run<Link>,
    gives_up: bool,
) -> bool {
    let begun = is_raised(begun);
    linger();
    if gives_up {
        shared.give_up(rt, 0);
        return begun;
    }
    begun && shared.publish(rt, run).is_ok()
}

/// What a committer takes of job 0 that waits for it while the run is published, or its job given
/// up.
fn take_left<R: Threads + Wait + Sync>(
    rt: &R,
    shared: &Shared<Link>,
    run: Run<Link>,
    gives_up: bool,
) -> &'static str {
    let begun = AtomicBool::new(false);
    let (taken, left) = join(
        rt,
        || take_first(rt, shared, &begun),
        || leave_first(rt, shared, &begun, run, gives_up),
    );
    if left { taken } else { "nothing left" }
}

fn taken_of<R: Threads + Wait + Sync>(
    rt: &R,
    alloc: Global,
    gives_up: bool,
) -> Result<&'static str, Fail> {
    let run = run_at_root(alloc, &THREE, 0)?;
    let shared = shared_of(alloc, &THREE, true)?;
    if shared.claim(rt) != Claim::Job(0) {
        return Err("no job".into());
    }
    Ok(take_left(rt, &shared, run, gives_up))
}

#[test]
fn a_committer_that_waits_is_woken(rt: HostRuntime) -> Result<(), Fail> {
    for _ in 0..TIMES {
        let published = taken_of(&rt, rt.alloc(), false)?;
        assert_eq!(rt; published, "run");
        let given_up = taken_of(&rt, rt.alloc(), true)?;
        assert_eq!(rt; given_up, "given up");
    }
    Ok(())
}

/// Claims a job, and waits where there is none.
fn claim_one<R: Wait>(rt: &R, shared: &Shared<Link>, begun: &AtomicBool) -> Claim {
    begun.store(true, Ordering::SeqCst);
    shared.claim_wait(rt)
}

/// What a committer takes of job 0 and what a worker claims, side by side.
fn take_and_claim<R: Threads + Wait + Sync>(
    rt: &R,
    shared: &Shared<Link>,
    first: &AtomicBool,
    second: &AtomicBool,
) -> (&'static str, Claim) {
    join(
        rt,
        || take_first(rt, shared, first),
        || claim_one(rt, shared, second),
    )
}

/// Publishes the run once both wait. Whether that could be done.
fn publish_behind<R: Wait>(
    rt: &R,
    shared: &Shared<Link>,
    first: &AtomicBool,
    second: &AtomicBool,
    run: Run<Link>,
) -> bool {
    let begun = is_raised(first) && is_raised(second);
    linger();
    begun && shared.publish(rt, run).is_ok()
}

/// Whether a committer that waits for job 0 and a worker that waits for job 1 get them once the run
/// of job 0 is published.
fn are_woken<R: Threads + Wait + Sync>(rt: &R, shared: &Shared<Link>, run: Run<Link>) -> bool {
    let first = AtomicBool::new(false);
    let second = AtomicBool::new(false);
    let (got, done) = join(
        rt,
        ||
            requires { IsSync R.row }
        { take_and_claim(rt, shared, &first, &second) },
        || publish_behind(rt, shared, &first, &second, run),
    );
    done && got.0 == "run" && got.1 == Claim::Job(1)
}

fn wake_both<R: Threads + Wait + Sync>(rt: &R, alloc: Global) -> Result<bool, Fail> {
    let run = run_at_root(alloc, &THREE, 0)?;
    let shared = shared_of(alloc, &THREE, true)?;
    if shared.claim(rt) != Claim::Job(0) {
        return Err("no job".into());
    }
    Ok(are_woken(rt, &shared, run))
}

#[test]
fn a_committer_and_a_worker_that_wait_are_woken(rt: HostRuntime) -> Result<(), Fail> {
    for _ in 0..TIMES {
        let woken = wake_both(&rt, rt.alloc())?;
        assert!(rt; woken);
    }
    Ok(())
}

/// Three jobs, none of which reads the file of another.
static FORKED: [(&str, &str); 3] = [("/x", "/a"), ("/y", "/b"), ("/z", "/c")];

/// Nothing for the first of three jobs; the others wait for it.
fn forked_waits(alloc: Global) -> Result<Seq<Seq<u32>>, NoMemory> {
    let mut waits = Seq::new(alloc);
    for job in 0..3u32 {
        let mut wait = Seq::new(alloc);
        if job > 0 {
            wait.push(0)?;
        }
        waits.push(wait)?;
    }
    Ok(waits)
}

/// Works, and says before that it does.
fn work_as<R: Wait>(
    rt: &R,
    alloc: Global,
    shared: &Shared<Link>,
    links: &[Link],
    worker: u32,
    begun: &AtomicBool,
    gate: &Fork,
) {
    begun.store(true, Ordering::SeqCst);
    work(rt, alloc, shared, links, worker, &Linker, gate);
}

/// Whether two workers run the last two of three jobs side by side, both of which wait for the
/// first.
fn do_meet<R: Threads + Wait + Sync>(rt: &R, alloc: Global) -> Result<bool, Fail> {
    let links = links_of(alloc, &FORKED)?;
    let waits = forked_waits(alloc)?;
    let shared = shared_from(alloc, root(alloc)?, waits)?;
    let gate = Fork::new();
    join(
        rt,
        || work_as(rt, alloc, &shared, links.items(), 1, &gate.begun.0, &gate),
        || work_as(rt, alloc, &shared, links.items(), 2, &gate.begun.1, &gate),
    );
    Ok(gate.is_met())
}

#[test]
fn a_worker_waits_for_the_next_job(rt: HostRuntime) -> Result<(), Fail> {
    let met = do_meet(&rt, rt.alloc())?;
    assert!(rt; met);
    Ok(())
}
