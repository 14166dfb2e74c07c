//! Jobs of a plan that are shared.
ghost use Rattle.std.specs.Prelude.{◌≡◌, IfOk};
ghost use Rattle.std.specs.Cmp.{partial_equiv_from_equiv};
ghost use Rattle.em_plan.specs.contracts.planned.PlanJobPartialEq.TheImpl as job_eq;
ghost use Rattle.em_plan.specs.contracts.planned.PlanJobEq.TheImpl.Laws as job_eq_laws;

use crate::planned::PlanJob;
use em_base::NoMemory;
use std::alloc::Global;
use std::marker::Model;
use std::sync::Arc;

/// A job of a plan that all who hold it share, in any threads. Contracts see the job.
#[derive(Debug, Drop)]
pub struct SharedJob {
    held: Arc<PlanJob, Global>,
}

impl Model for SharedJob {
    ghost use Rattle.std.specs.Arc.{arc_value};
    ghost use Rattle.em_plan.specs.declared.planned.PlanJob.{PlanJob};
    ghost use Rattle.em_plan.specs.contracts.planned.PlanJob as job;

    ghost Value = { PlanJob };

    ghost coded = { job.the_row.coded };

    ghost view = { λ s. arc_value s.held };
}

impl SharedJob {
    /// This job, to be shared. It isn't copied.
    pub fn new(alloc: Global, job: PlanJob) -> Result<SharedJob, NoMemory>
        ensures { IfOk result (λ s. s ≡ job) }
    {
        let held = Arc::new(alloc, job)?;
        Ok(SharedJob { held })
    }

    /// The same job once more. Nothing is copied.
    pub fn copy(&self) -> Result<SharedJob, NoMemory>
        ensures { IfOk result (λ s. s ≡ self.now) }
    {
        let held = Arc::try_clone(&self.held)?;
        Ok(SharedJob { held })
    }

    /// The job.
    pub fn get(&self) -> &PlanJob
        ensures { result.now ≡ self.now }
    {
        &self.held
    }
}

impl PartialEq for SharedJob {
    ghost eq = { job_eq.ghosts.eq };

    ghost laws = { partial_equiv_from_equiv job_eq_laws.laws-law };

    fn eq(&self, other: &Self) -> bool {
        self.get() == other.get()
    }
}

impl Eq for SharedJob {
    ghost laws = { job_eq_laws.laws-law };
}
