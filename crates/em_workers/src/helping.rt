//! The committer's side of a board, where the committer helps the workers.
use crate::counted::Counted;
use crate::gate::Gate;
use crate::lender::Lender;
use crate::worker::run_claimed;
use em_engine::{Claim, Taken};
use em_run::{Spec, Work};
use em_shared::{SettleNo, Shared};
use em_tree::{Delta, Outcome};
use std::alloc::Global;
use std::sync::Wait;

/// Lends what the workers of a shared board have left. While one of them runs the job that is asked
/// for and the others run jobs, too, it runs jobs ahead as they do, in place of waiting. It tells
/// nothing.
#[derive(Drop)]
pub(crate) struct HelpingLender<'a, R: Wait, S: Spec, W: Work<S>, G: Gate> {
    pub(crate) rt: &'a R,
    pub(crate) alloc: Global,
    pub(crate) shared: &'a Shared<S>,
    pub(crate) specs: &'a [S],
    /// How many workers there are beside it.
    pub(crate) workers: u32,
    pub(crate) w: &'a Counted<'a, W>,
    pub(crate) gate: &'a G,
}

impl<'a, R: Wait, S: Spec, W: Work<S>, G: Gate> HelpingLender<'a, R, S, W, G> {
    /// Runs a job ahead where all workers run one and another can be claimed; whether it has. Where
    /// a worker runs none, a job that can be claimed is left to it, since the committer alone can
    /// go on with the next one.
    fn help(&self) -> bool {
        if self.w.running() < self.workers {
            return false;
        }
        let Claim::Job(job) = self.shared.claim(self.rt) else {
            return false;
        };
        let Some(spec) = self.specs.get(job as usize) else {
            return false;
        };
        run_claimed(
            self.rt,
            self.alloc,
            self.shared,
            spec,
            job,
            0,
            self.w,
            self.gate,
        );
        true
    }
}

impl<'a, R: Wait, S: Spec, W: Work<S>, G: Gate> Lender<S> for HelpingLender<'a, R, S, W, G> {
    ghost use Rattle.std.specs.Prelude.{None};

    ghost told = { λ l. None };

    /// Claims the job where no worker has, and else takes what its worker leaves; while that one
    /// runs it, it helps or waits.
    fn lend(&mut self, job: u32) -> Option<Taken<S>> {
        if self.shared.claim_front(self.rt, job) {
            return None;
        }
        for _ in self.rt.forever() {
            match self.shared.take(self.rt, job) {
                None => return None,
                Some(Taken::NotYet) => {}
                Some(taken) => return Some(taken),
            }
            if !self.help() {
                return self.shared.take_wait(self.rt, job);
            }
        }
        unreachable!()
    }

    fn settle(&mut self, job: u32, delta: Delta, outcome: Outcome) -> Result<(), SettleNo> {
        self.shared.settle(self.rt, job, delta, outcome)
    }

    fn stop(&mut self) {
        self.shared.stop(self.rt);
    }
}
