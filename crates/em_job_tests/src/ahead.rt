//! Jobs that one worker has run ahead, each behind those that it waits for and those that it reads
//! from.
use super::makefiles::{HIDDEN, Jobs, read_jobs, state_of};
use em_base::Seq;
use em_engine::Note;
use em_host::MemHost;
use em_job::{JobSpec, JobWork};
use em_shared::Shared;
use em_testing::{Counter, front_from, shared_from, show_bytes, show_notes};
use em_workers::{OpenGate, SharedLender, commit_all, work};
use std::alloc::{AllocError, Global};
use std::sync::Wait;
use std::test::Fail;

/// How often each of the three jobs was run so far.
fn show_counts(log: &mut String, counter: &Counter<JobWork>) -> Result<(), AllocError> {
    for job in 0..3 {
        let runs = counter.runs(job);
        write!(log, "{runs} ")?;
    }
    Ok(())
}

/// A shared board of the three jobs, and the jobs.
fn board_of(alloc: Global) -> Result<(Shared<JobSpec>, Seq<JobSpec>), Fail> {
    let (start, jobs) = read_jobs(alloc, HIDDEN)?;
    let Jobs { specs, waits } = jobs;
    let shared = shared_from(alloc, start, waits)?;
    Ok((shared, specs))
}

/// The notes of the jobs, committed.
fn commit<R: Wait>(
    rt: &R,
    alloc: Global,
    shared: &Shared<JobSpec>,
    specs: Seq<JobSpec>,
    counter: &Counter<JobWork>,
    host: &mut MemHost,
) -> Result<Seq<Note>, Fail> {
    let start = state_of(alloc, HIDDEN)?;
    let mut front = front_from(alloc, start, specs)?;
    let mut lender = SharedLender::new(rt, shared);
    Ok(commit_all(alloc, &mut lender, &mut front, counter, &OpenGate, host)?)
}

/// Commits the jobs, and shows the notes and what was printed.
fn show_commits<R: Wait>(
    rt: &R,
    alloc: Global,
    shared: &Shared<JobSpec>,
    specs: Seq<JobSpec>,
    counter: &Counter<JobWork>,
    log: &mut String,
) -> Result<(), Fail> {
    let mut host = MemHost::new(alloc);
    let notes = commit(rt, alloc, shared, specs, counter, &mut host)?;
    show_notes(log, notes.items())?;
    show_bytes(log, host.printed())?;
    Ok(())
}

/// How often the jobs were run ahead, their notes and what was printed.
fn kept<R: Wait>(rt: &R, alloc: Global, counter: &Counter<JobWork>) -> Result<String, Fail> {
    let (shared, specs) = board_of(alloc)?;
    let mut log = String::new(alloc);
    work(rt, alloc, &shared, specs.items(), 1, counter, &OpenGate);
    show_counts(&mut log, counter)?;
    show_commits(rt, alloc, &shared, specs, counter, &mut log)?;
    Ok(log)
}

#[test]
fn jobs_that_were_run_ahead_in_order_are_kept(rt: HostRuntime) -> Result<(), Fail> {
    let counter = Counter::new(rt.alloc(), JobWork::new(), 3)?;
    let log = kept(&rt, rt.alloc(), &counter)?;
    assert_eq!(rt;
        log.as_str(),
        "1 1 1 0 in 1; 1 in 1; 2 in 1; echo 1 > g\ncat g\n1\n"
    );
    for job in 0..3 {
        assert!(rt; counter.runs(job) == 1, "job {job}");
    }
    Ok(())
}
