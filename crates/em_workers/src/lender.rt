//! The committer's side of a board.
ghost use Rattle.std.specs.Prelude.{◌≡◌, ◌&&◌, ◌++◌, ◌∷◌, [], None, false, true, Option, All, IfSome, OnOk, OnErr, drop};
ghost use Rattle.std.specs.Vec.Iter.{into_iter_items};
ghost use Rattle.em_shared.specs.Waited.{IsLent};
ghost use Rattle.em_workers.specs.Lending.{Lending, Both, first_of, is_behind, Lends, Settles, Stops};

use crate::settled::Settled;
use em_base::NoMemory;
use em_engine::Taken;
use em_run::Spec;
use em_shared::{SettleNo, Shared};
use em_tree::{Delta, Outcome};
use std::alloc::Global;
use std::marker::Model;
use std::sync::Wait;
use std::vec::IntoIter;

/// The committer's side of a board: it lends what a worker has left of a job, and is told what was
/// committed.
pub trait Lender<S: Spec>: Drop {
    /// What the coming calls give, which jobs were asked for, what was settled and whether it was
    /// stopped, where it tells that.
    ghost told: { Self → Option (Lending S) };

    /// What a worker has left of the next job; None where the committer is to run it.
    fn lend(&mut self, job: u32) -> Option<Taken<S>>
        ensures lent { IfSome result IsLent }
        ensures told { Both (Lends job result) (told self.old) (told self.new) };

    /// Settles the next job.
    fn settle(&mut self, job: u32, delta: Delta, outcome: Outcome) -> Result<(), SettleNo>
        ensures told { Both (Settles
            (record { job = job; delta = delta; outcome = outcome }) result)
            (told self.old) (told self.new) };

    /// No more is asked of it, and workers end.
    fn stop(&mut self)
        ensures told { Both Stops (told self.old) (told self.new) };
}

/// Lends what it was given, job after job, and keeps what was settled. Contracts see what it tells.
#[derive(Drop)]
pub struct ScriptLender<S: Spec> {
    lends: IntoIter<Option<Taken<S>>>,
    last: Option<u32>,
    in_order: bool,
    settled: Vec<Settled>,
    stopped: bool,
}

impl<S: Spec> Model for ScriptLender<S> {
    ghost use Rattle.std.specs.Prelude.{All, IfSome};
    ghost use Rattle.std.specs.Vec.Iter.{into_iter_items};
    ghost use Rattle.std.specs.Coded.{codes};
    ghost use Rattle.em_engine.specs.contracts.event.Taken as taken;
    ghost use Rattle.em_shared.specs.Waited.{IsLent};
    ghost use Rattle.em_workers.specs.contracts.settled.Settled as told;
    ghost use Rattle.em_workers.specs.Lending.{Lending};
    ghost use Rattle.em_run.specs.Codes.{parts_code};

    ghost Value = { Lending S };

    ghost coded = { Prim.hlevel (codes, told.the_row.coded, parts_code S.code) };

    ghost view = { λ l. record {
      lends = into_iter_items l.lends;
      asked = record { last = l.last; in_order = l.in_order };
      settled = l.settled.items;
      stopped = l.stopped;
    } };

    ghost invariant = { λ l. All (λ o. IfSome o IsLent) (into_iter_items l.lends) };
}

impl<S: Spec> ScriptLender<S> {
    /// Lends these, in order, and then nothing.
    pub fn new(alloc: Global, lends: Vec<Option<Taken<S>>>) -> ScriptLender<S>
        requires { All (λ o. IfSome o IsLent) lends.items }
        ensures { result ≡ record {
          lends = lends.items;
          asked = record { last = None; in_order = true };
          settled = [];
          stopped = false;
        } }
    {
        ScriptLender {
            lends: lends.into_iter(),
            last: None,
            in_order: true,
            settled: Vec::new(alloc),
            stopped: false,
        }
    }

    /// What was settled, in order.
    pub fn settled(&self) -> &[Settled]
        ensures { result.now ≡ self.now.settled }
    {
        self.settled.as_slice()
    }

    /// Whether it was stopped.
    pub fn stopped(&self) -> bool
        ensures { result ≡ self.now.stopped }
    {
        self.stopped
    }
}

impl<S: Spec> Lender<S> for ScriptLender<S> {
    ghost use Rattle.std.specs.Prelude.{Some};

    ghost told = { λ l. Some l };

    fn lend(&mut self, job: u32) -> Option<Taken<S>> {
        self.in_order = goes_on(self.in_order, self.last, job);
        self.last = Some(job);
        first_of(&mut self.lends)
    }

    fn settle(&mut self, job: u32, delta: Delta, outcome: Outcome) -> Result<(), SettleNo> {
        let done = Settled {
            job,
            delta,
            outcome,
        };
        keep(&mut self.settled, done)?;
        Ok(())
    }

    fn stop(&mut self) {
        self.stopped = true;
    }
}

/// Whether the job is the one behind this one.
fn is_behind(last: Option<u32>, job: u32) -> bool
    ensures { result ≡ is_behind last job }
{
    match last {
        None => true,
        Some(last) => u64::from(job) == u64::from(last) + 1,
    }
}

/// Whether the jobs asked for are in order with this one, too.
fn goes_on(in_order: bool, last: Option<u32>, job: u32) -> bool
    ensures { result ≡ (in_order && is_behind last job) }
{
    in_order && is_behind(last, job)
}

/// Takes the first item out. None also where there is none left.
fn first_of<T>(items: &mut IntoIter<Option<T>>) -> Option<T>
    ensures first { result ≡ first_of (into_iter_items items.old) }
    ensures left { into_iter_items items.new ≡ drop 1 (into_iter_items items.old) }
{
    let Some(first) = items.next() else {
        return None;
    };
    first
}

/// One more.
fn keep(settled: &mut Vec<Settled>, done: Settled) -> Result<(), NoMemory>
    ensures ok { OnOk result (settled.new.items ≡ settled.old.items ++ done ∷ []) }
    ensures err { OnErr result (settled.new.items ≡ settled.old.items) }
{
    settled.push(done)?;
    Ok(())
}

/// Lends what the workers of a shared board have left. It tells nothing.
#[derive(Drop)]
pub struct SharedLender<'a, R: Wait, S: Spec> {
    rt: &'a R,
    shared: &'a Shared<S>,
}

impl<'a, R: Wait, S: Spec> SharedLender<'a, R, S> {
    /// The committer's side of this board. It takes no memory.
    pub fn new(rt: &'a R, shared: &'a Shared<S>) -> SharedLender<'a, R, S> {
        SharedLender { rt, shared }
    }
}

impl<'a, R: Wait, S: Spec> Lender<S> for SharedLender<'a, R, S> {
    ghost use Rattle.std.specs.Prelude.{None};

    ghost told = { λ l. None };

    /// Claims the job where no worker has, and else waits for what its worker leaves.
    fn lend(&mut self, job: u32) -> Option<Taken<S>> {
        if self.shared.claim_front(self.rt, job) {
            return None;
        }
        self.shared.take_wait(self.rt, job)
    }

    fn settle(&mut self, job: u32, delta: Delta, outcome: Outcome) -> Result<(), SettleNo> {
        self.shared.settle(self.rt, job, delta, outcome)
    }

    fn stop(&mut self) {
        self.shared.stop(self.rt);
    }
}
