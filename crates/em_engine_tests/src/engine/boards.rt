//! Boards, call after call.
ghost use Rattle.std.specs.Prelude.{◌↔◌, ◌<◌, ℕ, [], IsTrue, All, slice_index_or};

use super::marks::{Mark, run_at_root};
use crate::common::{path, root};
use em_base::{NoMemory, Seq};
use em_engine::{Board, Claim, Taken};
use em_run::{Run, Spec};
use em_tree::{Answer, Delta, Kind, Look, Outcome, Question};
use std::alloc::{AllocError, Global};
use std::test::Fail;

/// A call on a board, with the job.
enum BoardCall {
    Next,
    Front(u32),
    Ask(u32),
    Publish(u32),
    GiveUp(u32),
    Take(u32),
    Settle(u32),
    Stop,
}

use BoardCall::*;

/// What each job waits for, the calls, and what they answer.
type Row = (
    &'static [&'static [u32]],
    &'static [BoardCall],
    &'static str,
);

/// A claim answers a job, or `wait` or `done`. Each question is the kind of `/x`, which each run
/// makes.
static ROWS: [Row; 5] = [
    (
        &[&[], &[], &[1], &[2]],
        &[
            Next,
            Next,
            Next,
            Publish(1),
            Next,
            Take(0),
            Publish(0),
            Take(0),
            Stop,
            Next,
        ],
        "0 1 wait posted 2 wait posted run stopped done ",
    ),
    (
        &[&[], &[]],
        &[
            Next,
            Next,
            Ask(1),
            Publish(0),
            Ask(1),
            Publish(1),
            Take(0),
            Settle(0),
            Take(1),
        ],
        "0 1 absent posted file posted run settled run absent file ",
    ),
    (
        &[&[], &[]],
        &[Next, Next, Publish(1), Ask(0)],
        "0 1 posted absent ",
    ),
    (
        &[&[], &[]],
        &[Front(0), Next, Settle(0), Ask(1), Front(1), Settle(1)],
        "yes 1 settled file no phase ",
    ),
    (
        &[&[], &[0], &[0, 0]],
        &[
            Next,
            Next,
            GiveUp(0),
            Next,
            Take(0),
            Next,
            Next,
            Settle(0),
            Ask(0),
        ],
        "0 wait gave 1 gave 2 done settled phase ",
    ),
];

fn all_below(jobs: &[u32], job: usize) -> bool
    ensures { IsTrue result ↔ All (λ k. k < job) jobs.now }
{
    jobs.iter().all(|k| (*k as usize) < job)
}

/// Whether each job waits for jobs below it.
fn are_lower(waits: &[Seq<u32>]) -> bool
    ensures { IsTrue result → (j : ℕ) → All (λ k. k < j) (slice_index_or waits.now j []) }
{
    for job in 0..waits.len() {
        if !all_below(waits[job].items(), job) {
            return false;
        }
    }
    true
}

fn wait_of(alloc: Global, row: &[u32]) -> Result<Seq<u32>, NoMemory> {
    let jobs = Vec::from_slice(alloc, row)?;
    Ok(Seq::from_vec(jobs))
}

fn waits_of(alloc: Global, rows: &[&[u32]]) -> Result<Seq<Seq<u32>>, NoMemory> {
    let mut waits = Seq::new(alloc);
    for row in rows {
        waits.push(wait_of(alloc, row)?)?;
    }
    Ok(waits)
}

fn board_of(alloc: Global, rows: &[&[u32]]) -> Result<Board<Mark>, Fail> {
    let root = root(alloc)?;
    let waits = waits_of(alloc, rows)?;
    if waits.len() > 10 || !are_lower(waits.items()) {
        return Err("waits".into());
    }
    Ok(Board::new(alloc, root, waits)?)
}

fn show_claim(claim: Claim, log: &mut String) -> Result<(), AllocError> {
    match claim {
        Claim::Job(job) => write!(log, "{job} "),
        Claim::Done => log.push_str("done "),
        Claim::NotYet => log.push_str("wait "),
    }
}

fn show_answer(answer: &Answer, log: &mut String) -> Result<(), AllocError> {
    log.push_str(match answer {
        Answer::Kind(Kind::File) => "file ",
        Answer::Kind(Kind::Absent) => "absent ",
        _ => "other ",
    })
}

fn show_taken(taken: &Taken<Mark>, log: &mut String) -> Result<(), AllocError> {
    match taken {
        Taken::Run(_, asked) => {
            log.push_str("run ")?;
            show_asked(asked.looks(), log)
        }
        Taken::GivenUp => log.push_str("gave "),
        Taken::NotYet => log.push_str("wait "),
    }
}

/// No link is asked for here, so each look is one entry.
fn show_asked(asked: &[Look], log: &mut String) -> Result<(), AllocError> {
    for look in asked {
        show_answer(&look.entry.answer, log)?;
    }
    Ok(())
}

fn front(board: &mut Board<Mark>, job: u32) -> &'static str {
    if job as usize >= board.len() || job != board.settled() {
        return "phase ";
    }
    if board.claim_front(job) {
        "yes "
    } else {
        "no "
    }
}

fn ask_of(
    board: &mut Board<Mark>,
    job: u32,
    question: &Question,
    log: &mut String,
) -> Result<(), NoMemory> {
    if !board.is_claimed(job) {
        return Ok(log.push_str("phase ")?);
    }
    let answer = board.ask(job, question)?;
    Ok(show_answer(&answer, log)?)
}

fn ask(alloc: Global, board: &mut Board<Mark>, job: u32, log: &mut String) -> Result<(), NoMemory> {
    let question = Question::Kind(path(alloc, b"/x")?);
    ask_of(board, job, &question, log)
}

fn publish(board: &mut Board<Mark>, run: Run<Mark>) -> &'static str {
    if !board.is_claimed(run.spec().job()) {
        return "phase ";
    }
    match board.publish(run) {
        Ok(()) => "posted ",
        Err(_) => "memory ",
    }
}

fn give_up(board: &mut Board<Mark>, job: u32) -> &'static str {
    if !board.is_claimed(job) {
        return "phase ";
    }
    board.give_up(job);
    "gave "
}

fn take(board: &mut Board<Mark>, job: u32, log: &mut String) -> Result<(), AllocError> {
    if job != board.settled() || !board.can_take(job) {
        return log.push_str("phase ");
    }
    show_taken(&board.take(job), log)
}

/// What a run has changed, and how it ended.
fn effect_of(run: Run<Mark>) -> (Delta, Outcome) {
    let parts = run.into_parts();
    (parts.delta, parts.outcome)
}

fn settle(board: &mut Board<Mark>, job: u32, effect: (Delta, Outcome)) -> &'static str {
    if job != board.settled() || !board.can_settle(job) {
        return "phase ";
    }
    match board.settle(job, effect.0, effect.1) {
        Ok(()) => "settled ",
        Err(_) => "memory ",
    }
}

fn stop(board: &mut Board<Mark>) -> &'static str {
    board.stop();
    "stopped "
}

/// A call that a word answers.
fn word(
    alloc: Global,
    board: &mut Board<Mark>,
    step: &BoardCall,
) -> Result<&'static str, NoMemory> {
    Ok(match step {
        Front(job) => front(board, *job),
        Publish(job) => publish(board, run_at_root(alloc, *job)?),
        GiveUp(job) => give_up(board, *job),
        Settle(job) => settle(board, *job, effect_of(run_at_root(alloc, *job)?)),
        _ => stop(board),
    })
}

fn next(board: &mut Board<Mark>, log: &mut String) -> Result<(), AllocError> {
    show_claim(board.claim(), log)
}

fn take_step(
    alloc: Global,
    board: &mut Board<Mark>,
    step: &BoardCall,
    log: &mut String,
) -> Result<(), NoMemory> {
    match step {
        Next => Ok(next(board, log)?),
        Ask(job) => ask(alloc, board, *job, log),
        Take(job) => Ok(take(board, *job, log)?),
        _ => Ok(log.push_str(word(alloc, board, step)?)?),
    }
}

fn play(alloc: Global, row: &Row, log: &mut String) -> Result<(), Fail> {
    let mut board = board_of(alloc, row.0)?;
    for step in row.1 {
        take_step(alloc, &mut board, step, log)?;
    }
    Ok(())
}

fn log_of(alloc: Global, row: &Row) -> Result<String, Fail> {
    let mut log = String::new(alloc);
    play(alloc, row, &mut log)?;
    Ok(log)
}

#[test]
fn boards_answer_call_after_call(rt: HostRuntime) -> Result<(), Fail> {
    for row in &ROWS {
        let log = log_of(rt.alloc(), row)?;
        assert_eq!(rt; log.as_str(), row.2);
    }
    Ok(())
}
