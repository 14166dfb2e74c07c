//! A job that pauses, as a make within a make takes it.
ghost use Rattle.em_steps.specs.Laps.{plot_of, back_of};

use em_base::{NoMemory, Text};
use em_exec::Turn;
use em_steps::JobSteps;
use em_submake::Steps;
use em_view::{Desk, View};
use std::alloc::Global;

/// A job of a makefile that pauses at each line that begins a make.
#[derive(Drop)]
pub(crate) struct Turns {
    pub(crate) steps: JobSteps,
}

impl Steps for Turns {
    ghost plot = { λ t. plot_of t.steps };

    ghost back = { λ t. back_of t.steps };

    fn step<V: View>(
        &mut self,
        alloc: Global,
        desk: &mut Desk<V>,
        out: &mut Text,
    ) -> Result<Turn, NoMemory> {
        self.steps.step(alloc, desk, out)
    }

    fn resume(&mut self, status: u8) {
        self.steps.resume(status);
    }

    fn spent(&mut self) {
        self.steps.spent();
    }
}
