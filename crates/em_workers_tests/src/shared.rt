//! A shared board, call after call, on one thread.
use em_engine::{Claim, Taken};
use em_path::Path;
use em_run::Run;
use em_shared::{Held, SettleNo, Shared};
use em_testing::{Link, THREE, path_of, run_at_root, shared_of, show_answer};
use em_tree::{Delta, Outcome, Question};
use std::alloc::{AllocError, Global};
use std::sync::Wait;
use std::test::Fail;

/// A call on a shared board, with the job.
enum SharedCall {
    Next,
    /// Waits, were it too early.
    NextWait,
    Front(u32),
    Ask(u32),
    Publish(u32),
    GiveUp(u32),
    Take(u32),
    /// Waits, were it too early.
    TakeWait(u32),
    Settle(u32),
    Stop,
}

use SharedCall::*;

/// The calls, and what they answer. An ask is one of each kind of question: what `/` is, its stamp,
/// its content, the names of `/a`, what `/a` says as a link, and how job 0 ended.
type Row = (&'static [SharedCall], &'static str);

static ROWS: [Row; 3] = [
    // Nothing is claimed, and nothing changes.
    (
        &[
            Front(1),
            Front(3),
            Take(0),
            Take(3),
            TakeWait(0),
            Publish(0),
            Settle(0),
            Settle(1),
            GiveUp(0),
            Ask(0),
            Ask(3),
            Next,
        ],
        "no; no; none; none; none; back; phase; phase; given; \
         Absent, no stamp, no content, 0 names, no link, no outcome; \
         Absent, no stamp, no content, 0 names, no link, no outcome; \
         0; ",
    ),
    // Each call in its turn.
    (
        &[
            Next,
            Ask(0),
            Front(0),
            Take(0),
            Settle(0),
            Publish(0),
            Ask(0),
            Publish(0),
            Take(1),
            Take(0),
            Take(0),
            Settle(0),
            Settle(0),
            Front(1),
            Take(1),
            TakeWait(1),
            Settle(1),
            NextWait,
            Publish(2),
            TakeWait(2),
            Settle(2),
            Next,
            Stop,
            Next,
            NextWait,
        ],
        "0; Dir, stamp 1, no content, no names, no link, no outcome; no; too early; phase; \
         published; \
         Absent, no stamp, no content, 0 names, no link, no outcome; back; none; \
         run of 0 with 6 asks; none; settled; phase; \
         yes; none; none; settled; \
         2; published; run of 2 with 0 asks; settled; done; stopped; done; done; ",
    ),
    // A job that is given up, and a board that is stopped early.
    (
        &[
            Next,
            Next,
            GiveUp(0),
            Publish(0),
            Settle(0),
            TakeWait(0),
            Settle(0),
            Stop,
            Stop,
            Publish(1),
            NextWait,
            Take(1),
            Settle(1),
        ],
        "0; 1; given; back; phase; given up; settled; stopped; stopped; published; done; \
         run of 1 with 0 asks; settled; ",
    ),
];

/// The i-th of six questions, one of each kind.
fn question(alloc: Global, i: u8) -> Result<Question, Fail> {
    Ok(match i {
        0 => Question::Kind(Path::root()),
        1 => Question::Stamp(Path::root()),
        2 => Question::Content(Path::root()),
        3 => Question::Names(path_of(alloc, "/a")?),
        4 => Question::Link(path_of(alloc, "/a")?),
        _ => Question::Outcome(0),
    })
}

fn show_claim(claim: Claim, log: &mut String) -> Result<(), AllocError> {
    match claim {
        Claim::Job(job) => write!(log, "{job}"),
        Claim::Done => log.push_str("done"),
        Claim::NotYet => log.push_str("too early"),
    }
}

fn show_taken(taken: &Option<Taken<Link>>, log: &mut String) -> Result<(), AllocError> {
    match taken {
        None => log.push_str("none"),
        Some(Taken::NotYet) => log.push_str("too early"),
        Some(Taken::GivenUp) => log.push_str("given up"),
        Some(Taken::Run(run, asked)) => {
            let job = run.spec().job;
            let asks = asked.looks().len();
            write!(log, "run of {job} with {asks} asks")
        }
    }
}

fn ask_one<R: Wait>(
    rt: &R,
    alloc: Global,
    shared: &Shared<Link>,
    job: u32,
    i: u8,
    log: &mut String,
) -> Result<(), Fail> {
    let question = question(alloc, i)?;
    let answer = shared.ask(rt, alloc, job, &question)?;
    Ok(show_answer(log, &answer)?)
}

fn ask<R: Wait>(
    rt: &R,
    alloc: Global,
    shared: &Shared<Link>,
    job: u32,
    log: &mut String,
) -> Result<(), Fail> {
    for i in 0..6 {
        log.push_str(if i == 0 { "" } else { ", " })?;
        ask_one(rt, alloc, shared, job, i, log)?;
    }
    Ok(())
}

/// What is held of the job.
fn held_word(held: &Held<Link>, job: u32) -> &'static str {
    match held {
        Held::Memory(_) => "memory",
        Held::Phase(run) => {
            if run.spec().job == job {
                "back"
            } else {
                "another"
            }
        }
    }
}

/// Publishes the run of a job over a root alone.
fn publish<R: Wait>(
    rt: &R,
    alloc: Global,
    shared: &Shared<Link>,
    job: u32,
) -> Result<&'static str, Fail> {
    let run = run_at_root(alloc, &THREE, job)?;
    Ok(match shared.publish(rt, run) {
        Ok(()) => "published",
        Err(held) => held_word(&held, job),
    })
}

/// What a run has changed, and how it ended.
fn effect_of(run: Run<Link>) -> (Delta, Outcome) {
    let parts = run.into_parts();
    (parts.delta, parts.outcome)
}

/// Settles a job with what its run over a root alone holds.
fn settle<R: Wait>(
    rt: &R,
    alloc: Global,
    shared: &Shared<Link>,
    job: u32,
) -> Result<&'static str, Fail> {
    let (delta, outcome) = effect_of(run_at_root(alloc, &THREE, job)?);
    Ok(match shared.settle(rt, job, delta, outcome) {
        Ok(()) => "settled",
        Err(SettleNo::Phase) => "phase",
        Err(SettleNo::NoMemory) => "memory",
    })
}

fn front<R: Wait>(rt: &R, shared: &Shared<Link>, job: u32) -> &'static str {
    if shared.claim_front(rt, job) {
        "yes"
    } else {
        "no"
    }
}

/// A call that a word answers.
fn word<R: Wait>(
    rt: &R,
    alloc: Global,
    shared: &Shared<Link>,
    step: &SharedCall,
) -> Result<&'static str, Fail> {
    match step {
        Front(job) => Ok(front(rt, shared, *job)),
        Publish(job) => publish(rt, alloc, shared, *job),
        Settle(job) => settle(rt, alloc, shared, *job),
        GiveUp(job) => {
            shared.give_up(rt, *job);
            Ok("given")
        }
        _ => {
            shared.stop(rt);
            Ok("stopped")
        }
    }
}

/// A call that gives a job, or what is left of one.
fn show_call<R: Wait>(
    rt: &R,
    shared: &Shared<Link>,
    step: &SharedCall,
    log: &mut String,
) -> Result<(), AllocError> {
    match step {
        Next => show_claim(shared.claim(rt), log),
        NextWait => show_claim(shared.claim_wait(rt), log),
        Take(job) => show_taken(&shared.take(rt, *job), log),
        TakeWait(job) => show_taken(&shared.take_wait(rt, *job), log),
        _ => Ok(()),
    }
}

fn take_step<R: Wait>(
    rt: &R,
    alloc: Global,
    shared: &Shared<Link>,
    step: &SharedCall,
    log: &mut String,
) -> Result<(), Fail> {
    match step {
        Ask(job) => ask(rt, alloc, shared, *job, log),
        Next | NextWait | Take(_) | TakeWait(_) => Ok(show_call(rt, shared, step, log)?),
        _ => Ok(log.push_str(word(rt, alloc, shared, step)?)?),
    }
}

fn play<R: Wait>(
    rt: &R,
    alloc: Global,
    steps: &[SharedCall],
    log: &mut String,
) -> Result<(), Fail> {
    let shared = shared_of(alloc, &THREE, false)?;
    for step in steps {
        take_step(rt, alloc, &shared, step, log)?;
        log.push_str("; ")?;
    }
    Ok(())
}

fn log_of<R: Wait>(rt: &R, alloc: Global, steps: &[SharedCall]) -> Result<String, Fail> {
    let mut log = String::new(alloc);
    play(rt, alloc, steps, &mut log)?;
    Ok(log)
}

#[test]
fn a_shared_board_answers_call_after_call(rt: HostRuntime) -> Result<(), Fail> {
    for (steps, wanted) in &ROWS {
        let log = log_of(&rt, rt.alloc(), steps)?;
        assert_eq!(rt; log.as_str(), *wanted);
    }
    Ok(())
}
