//! The board behind a lock.
ghost use Rattle.std.specs.Prelude.{◌≡◌, IfOk, IfErr, IfSome};
ghost use Rattle.em_view.specs.Views.{IsAnswerTo};
ghost use Rattle.em_shared.specs.Waited.{IsTold, IsLent, run_in};

use crate::no::{Held, SettleNo};
use em_base::NoMemory;
use em_engine::{Board, Claim, Taken};
use em_run::{Run, Spec};
use em_tree::{Answer, Delta, Kind, NameList, Outcome, Question};
use std::alloc::Global;
use std::sync::{Condvar, Mutex, Wait};

/// A board that threads share. Each call takes the lock, makes the board's call of the same name
/// and lets the lock go. Then it wakes the committer where the job that it waits for has ended, and
/// one of those that wait to claim where the call may have changed what they wait for: who is woken
/// and claims a job wakes the next one, and who finds that none is left wakes all. Where the
/// board's call can't be made, since the job is in another phase, nothing changes.
#[derive(Drop)]
pub struct Shared<S: Spec> {
    board: Mutex<Board<S>>,
    /// Waited for by who wants to claim a job.
    claimable: Condvar,
    /// Waited for by the committer while a worker runs the next job to be settled.
    ended: Condvar,
}

impl<S: Spec> Shared<S> {
    /// Shares the board. It takes no memory.
    pub fn new(board: Board<S>) -> Shared<S> {
        Shared {
            board: Mutex::new(board),
            claimable: Condvar::new(),
            ended: Condvar::new(),
        }
    }

    /// What a worker is to do.
    pub fn claim<R: Wait>(&self, rt: &R) -> Claim {
        let mut board = self.board.lock(rt);
        let claim = board.claim();
        drop(board);
        self.wake_after_claim(&claim);
        claim
    }

    /// What a worker is to do; it waits where no job can be claimed yet.
    pub fn claim_wait<R: Wait>(&self, rt: &R) -> Claim
        ensures { IsTold result }
    {
        let mut board = self.board.lock(rt);
        for _ in rt.forever() {
            match board.claim() {
                Claim::NotYet => {}
                claim => {
                    drop(board);
                    self.wake_after_claim(&claim);
                    return claim;
                }
            }
            board = self.claimable.wait(rt, board);
        }
        unreachable!()
    }

    /// Claims the next job to be settled for the committer, if it is free. False also where it
    /// isn't the next one.
    pub fn claim_front<R: Wait>(&self, rt: &R, job: u32) -> bool {
        let mut board = self.board.lock(rt);
        if (job as usize) >= board.len() || job != board.settled() {
            return false;
        }
        let claimed = board.claim_front(job);
        drop(board);
        self.claimable.notify_one();
        claimed
    }

    /// Answers a question of a job that a worker has. Where no worker has it, some answer of the
    /// question's kind, and the journal stays as it is.
    pub fn ask<R: Wait>(
        &self,
        rt: &R,
        alloc: Global,
        job: u32,
        q: &Question,
    ) -> Result<Answer, NoMemory>
        ensures { IfOk result (λ a. IsAnswerTo q.now a) }
    {
        let mut board = self.board.lock(rt);
        if !board.is_claimed(job) {
            return Ok(nothing(alloc, q));
        }
        board.ask(job, q)
    }

    /// Publishes a run of a job that a worker has, or hands it back.
    pub fn publish<R: Wait>(&self, rt: &R, run: Run<S>) -> Result<(), Held<S>>
        ensures { IfErr result (λ held. run_in held ≡ run) }
    {
        let mut board = self.board.lock(rt);
        if !board.is_claimed(run.spec().job()) {
            return Err(Held::Phase(run));
        }
        let awaited = run.spec().job() == board.settled();
        let published = board.publish(run);
        drop(board);
        self.wake_after_end(awaited);
        match published {
            Ok(()) => Ok(()),
            Err(run) => Err(Held::Memory(run)),
        }
    }

    /// Gives up the run of a job that a worker has.
    pub fn give_up<R: Wait>(&self, rt: &R, job: u32) {
        let mut board = self.board.lock(rt);
        if !board.is_claimed(job) {
            return;
        }
        let awaited = job == board.settled();
        board.give_up(job);
        drop(board);
        self.wake_after_end(awaited);
    }

    /// Takes what a worker has left of the next job to be settled. None where it isn't the next
    /// one, or no worker had it.
    pub fn take<R: Wait>(&self, rt: &R, job: u32) -> Option<Taken<S>> {
        let mut board = self.board.lock(rt);
        if job != board.settled() || !board.can_take(job) {
            return None;
        }
        Some(board.take(job))
    }

    /// Takes what a worker leaves of the next job to be settled; it waits while the worker runs it.
    pub fn take_wait<R: Wait>(&self, rt: &R, job: u32) -> Option<Taken<S>>
        ensures { IfSome result IsLent }
    {
        let mut board = self.board.lock(rt);
        for _ in rt.forever() {
            if job != board.settled() || !board.can_take(job) {
                return None;
            }
            match board.take(job) {
                Taken::NotYet => {}
                taken => return Some(taken),
            }
            board = self.ended.wait(rt, board);
        }
        unreachable!()
    }

    /// Settles the next job, which the committer has.
    pub fn settle<R: Wait>(&self, rt: &R, job: u32, d: Delta, o: Outcome) -> Result<(), SettleNo> {
        let mut board = self.board.lock(rt);
        if job != board.settled() || !board.can_settle(job) {
            return Err(SettleNo::Phase);
        }
        board.settle(job, d, o)?;
        drop(board);
        self.claimable.notify_one();
        Ok(())
    }

    /// Stops the board: no more jobs are claimed, and who waits to claim one ends.
    pub fn stop<R: Wait>(&self, rt: &R) {
        let mut board = self.board.lock(rt);
        board.stop();
        drop(board);
        self.claimable.notify_all();
        self.ended.notify_all();
    }

    /// Wakes those for whom a claim may have changed something.
    fn wake_after_claim(&self, claim: &Claim) {
        match claim {
            Claim::Job(_) => self.claimable.notify_one(),
            Claim::Done => self.claimable.notify_all(),
            Claim::NotYet => {}
        }
    }

    /// Wakes those for whom the end of a job may have changed something; whether the committer
    /// waits for this job.
    fn wake_after_end(&self, awaited: bool) {
        self.claimable.notify_one();
        if awaited {
            self.ended.notify_all();
        }
    }
}

/// What is answered where there is nothing. It takes no memory.
fn nothing(alloc: Global, q: &Question) -> Answer
    ensures { IsAnswerTo q.now result }
{
    match q {
        Question::Kind(_) => Answer::Kind(Kind::Absent),
        Question::Stamp(_) => Answer::Stamp(None),
        Question::Content(_) => Answer::Content(None),
        Question::Names(_) => Answer::Names(Some(NameList::new(alloc))),
        Question::Link(_) => Answer::Link(None),
        Question::Outcome(_) => Answer::Outcome(None),
    }
}
