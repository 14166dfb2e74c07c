//! Who runs jobs with makes within them.

use crate::making::JobMaker;
use crate::spec::MakeSpec;
use crate::turns::Turns;
use em_base::{Fuel, NoMemory, Text};
use em_run::{Run, Spec, Work};
use em_steps::JobSteps;
use em_submake::make;
use em_view::{Desk, View};
use std::alloc::Global;

/// Runs jobs of makefiles, with the makes that their lines begin.
#[derive(Drop)]
pub struct MakeWork;

impl MakeWork {
    /// It takes no memory.
    pub fn new() -> MakeWork {
        MakeWork
    }
}

impl Work<MakeSpec> for MakeWork {
    fn run<V: View>(
        &self,
        alloc: Global,
        spec: &MakeSpec,
        view: V,
    ) -> Result<Run<MakeSpec>, NoMemory> {
        let spec = spec.copy(alloc)?;
        let job = spec.get();
        let mut desk = Desk::new(alloc, view, job.base, job.job, Fuel::new(job.fuel));
        let mut output = Text::new(alloc);
        let steps = JobSteps::begin(alloc, spec.job(), None, 0)?;
        let outcome = make(alloc, Turns { steps }, &JobMaker, &mut desk, &mut output)?;
        let (usage, delta, used) = desk.close();
        Ok(Run::new(spec, usage, delta, output, outcome, used))
    }
}
