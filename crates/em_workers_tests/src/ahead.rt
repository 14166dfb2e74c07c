//! Jobs that were run ahead, and what the committer makes of that.
use super::gates::Publisher;
use em_base::Seq;
use em_engine::{Claim, Front, Note};
use em_host::MemHost;
use em_run::Work;
use em_shared::Shared;
use em_testing::{
    Counter, Link, Linker, THREE, front_of, links_of, run_at_root, shared_of, show_bytes,
    show_notes,
};
use em_workers::{BuildNo, Gate, OpenGate, SharedLender, commit_all, work};
use std::alloc::{AllocError, Global};
use std::sync::Wait;
use std::test::Fail;

/// What is done on the board before the three jobs are committed.
#[derive(Clone, Copy)]
enum Before {
    /// A run of job 0 is published that asked the board nothing.
    Publish,
    /// Job 0 is claimed and given up.
    GiveUp,
    /// A worker runs what it can, and a run of job 0 that asked the board nothing is published
    /// before this ask of job 1.
    PublishAt(u32),
}

/// What is done before, and what comes of the three jobs then.
static ROWS: [(Before, &str); 4] = [
    (
        Before::Publish,
        "0 in 2 strange 0: board none, run link of /z is no link; 1 in 1; 2 in 1; \
         /a/a/b/a/b/c",
    ),
    (
        Before::GiveUp,
        "0 in 2 memory; 1 in 1; 2 in 1; /a/a/b/a/b/c",
    ),
    (
        Before::PublishAt(0),
        "0 in 2 strange 0: board none, run link of /z is no link; 1 in 1; 2 in 1; \
         /a/a/b/a/b/c",
    ),
    (
        Before::PublishAt(2),
        "0 in 2 strange 0: board none, run link of /z is no link; \
         1 in 2 differ 1: content of /a was no content is /a after 0; \
         2 in 2 differ 1: content of /b was /b is /a/b after 1; \
         /a/a/b/a/b/c",
    ),
];

/// Whether the board has a job for the committer.
fn is_any_free<R: Wait>(rt: &R, shared: &Shared<Link>) -> bool {
    for job in 0..3 {
        if shared.claim_front(rt, job) {
            return true;
        }
    }
    false
}

/// Commits the front's jobs, and gives the notes.
fn notes_of<R: Wait, W: Work<Link>>(
    rt: &R,
    alloc: Global,
    shared: &Shared<Link>,
    w: &W,
    front: &mut Front<Link>,
    host: &mut MemHost,
) -> Result<Seq<Note>, BuildNo> {
    let mut lender = SharedLender::new(rt, shared);
    commit_all(alloc, &mut lender, front, w, &OpenGate, host)
}

/// Commits the three jobs, and shows the notes.
fn commit_three<R: Wait, W: Work<Link>>(
    rt: &R,
    alloc: Global,
    shared: &Shared<Link>,
    w: &W,
    host: &mut MemHost,
    log: &mut String,
) -> Result<(), Fail> {
    let mut front = front_of(alloc, &THREE)?;
    let notes = notes_of(rt, alloc, shared, w, &mut front, host)?;
    Ok(show_notes(log, notes.items())?)
}

/// Commits the three jobs: the notes, whether a job is free then, and what was printed.
fn show_committed<R: Wait, W: Work<Link>>(
    rt: &R,
    alloc: Global,
    shared: &Shared<Link>,
    w: &W,
    log: &mut String,
) -> Result<(), Fail> {
    let mut host = MemHost::new(alloc);
    commit_three(rt, alloc, shared, w, &mut host, log)?;
    log.push_str(if is_any_free(rt, shared) { "free " } else { "" })?;
    Ok(show_bytes(log, host.printed())?)
}

/// Runs what can be run of the three jobs, as worker 1.
fn work_ahead<R: Wait, W: Work<Link>, G: Gate>(
    rt: &R,
    alloc: Global,
    shared: &Shared<Link>,
    w: &W,
    gate: &G,
) -> Result<(), Fail> {
    let links = links_of(alloc, &THREE)?;
    work(rt, alloc, shared, links.items(), 1, w, gate);
    Ok(())
}

/// Claims job 0.
fn claim<R: Wait>(rt: &R, shared: &Shared<Link>) -> Result<(), Fail> {
    if shared.claim(rt) != Claim::Job(0) {
        return Err("no job".into());
    }
    Ok(())
}

/// Publishes a run of job 0 that asked the board nothing.
fn publish<R: Wait>(rt: &R, alloc: Global, shared: &Shared<Link>) -> Result<(), Fail> {
    let run = run_at_root(alloc, &THREE, 0)?;
    if shared.publish(rt, run).is_err() {
        return Err("not published".into());
    }
    Ok(())
}

/// Runs what can be run where such a run is published before this ask of job 1.
fn publish_at<R: Wait>(
    rt: &R,
    alloc: Global,
    shared: &Shared<Link>,
    step: u32,
) -> Result<(), Fail> {
    let run = run_at_root(alloc, &THREE, 0)?;
    let gate = Publisher::new(rt, shared, run, step);
    work_ahead(rt, alloc, shared, &Linker, &gate)
}

fn begin<R: Wait>(
    rt: &R,
    alloc: Global,
    shared: &Shared<Link>,
    before: Before,
) -> Result<(), Fail> {
    claim(rt, shared)?;
    match before {
        Before::Publish => publish(rt, alloc, shared),
        Before::GiveUp => {
            shared.give_up(rt, 0);
            Ok(())
        }
        Before::PublishAt(step) => publish_at(rt, alloc, shared, step),
    }
}

fn play<R: Wait>(rt: &R, alloc: Global, before: Before, log: &mut String) -> Result<(), Fail> {
    let shared = shared_of(alloc, &THREE, false)?;
    begin(rt, alloc, &shared, before)?;
    show_committed(rt, alloc, &shared, &Linker, log)
}

fn log_of<R: Wait>(rt: &R, alloc: Global, before: Before) -> Result<String, Fail> {
    let mut log = String::new(alloc);
    play(rt, alloc, before, &mut log)?;
    Ok(log)
}

#[test]
fn what_cannot_be_kept_of_a_job_is_run_again(rt: HostRuntime) -> Result<(), Fail> {
    for (before, wanted) in &ROWS {
        let log = log_of(&rt, rt.alloc(), *before)?;
        assert_eq!(rt; log.as_str(), *wanted);
    }
    Ok(())
}

fn show_runs(counter: &Counter<Linker>, log: &mut String) -> Result<(), AllocError> {
    for job in 0..3 {
        let runs = counter.runs(job);
        write!(log, " {runs}")?;
    }
    Ok(())
}

/// What comes of the three jobs where a worker has run them all, each behind those that it waits
/// for.
fn show_kept<R: Wait>(
    rt: &R,
    alloc: Global,
    counter: &Counter<Linker>,
    log: &mut String,
) -> Result<(), Fail> {
    let shared = shared_of(alloc, &THREE, true)?;
    work_ahead(rt, alloc, &shared, counter, &OpenGate)?;
    show_committed(rt, alloc, &shared, counter, log)
}

/// The same, and how often each job was run.
fn show_counted<R: Wait>(rt: &R, alloc: Global, log: &mut String) -> Result<(), Fail> {
    let counter = Counter::new(alloc, Linker, 3)?;
    show_kept(rt, alloc, &counter, log)?;
    Ok(show_runs(&counter, log)?)
}

#[test]
fn a_run_that_was_answered_right_is_kept(rt: HostRuntime) -> Result<(), Fail> {
    let mut log = String::new(rt.alloc());
    show_counted(&rt, rt.alloc(), &mut log)?;
    assert_eq!(rt; log.as_str(), "0 in 1; 1 in 1; 2 in 1; /a/a/b/a/b/c 1 1 1");
    Ok(())
}
