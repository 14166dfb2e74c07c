//! Who runs jobs.
ghost use Rattle.std.specs.Prelude.{◌≡◌, Ok, IfOk};
ghost use Rattle.em_job.specs.Effects.{closed};
ghost use Rattle.em_view.specs.Steps.{with_state};

use crate::carry::carry_out;
use crate::prepare::prepare_job;
use crate::ready::read;
use crate::spec::JobSpec;
use crate::stop::{JobStop, end_of, put_stop};
use em_base::{Fuel, NoMemory, Text};
use em_expand::Spoken;
use em_run::{Run, Spec, Work};
use em_tree::Outcome;
use em_view::{Desk, View};
use std::alloc::Global;

/// Runs jobs of makefiles.
#[derive(Drop)]
pub struct JobWork;

impl JobWork {
    /// It takes no memory.
    pub fn new() -> JobWork {
        JobWork
    }
}

/// What a job said, and how it ended.
fn close(
    target: &[u8],
    ended: Result<Outcome, JobStop>,
    spoken: Spoken,
) -> Result<(Text, Outcome), NoMemory>
    ensures { IfOk result (λ p. closed target.now (with_state ended spoken) ≡ Ok (p.1, p.0)) }
{
    let mut output = spoken.said;
    match ended {
        Ok(outcome) => Ok((output, outcome)),
        Err(JobStop::NoMemory) => Err(NoMemory),
        Err(stop) => {
            put_stop(&mut output, target, &stop)?;
            Ok((output, end_of(stop)))
        }
    }
}

impl Work<JobSpec> for JobWork {
    fn run<V: View>(
        &self,
        alloc: Global,
        spec: &JobSpec,
        view: V,
    ) -> Result<Run<JobSpec>, NoMemory> {
        let spec = spec.copy(alloc)?;
        let job = spec.get();
        let mut desk = Desk::new(alloc, view, job.base, job.job, Fuel::new(job.fuel));
        let mut spoken = Spoken::new(alloc);
        let prepared = prepare_job(alloc, &mut desk, &mut spoken, None, job);
        let course = read(alloc, prepared)?;
        let ended = carry_out(alloc, &mut desk, &mut spoken, job, course);
        let (output, outcome) = close(job.plan.get().target.bytes(), ended, spoken)?;
        let (usage, delta, used) = desk.close();
        Ok(Run::new(spec, usage, delta, output, outcome, used))
    }
}
