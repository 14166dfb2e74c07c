//! The spec of a job.
ghost use Rattle.std.specs.Prelude.{◌≡◌, ◌≤◌, ◌^◌, IfOk};
ghost use Rattle.std.specs.Cmp.{partial_equiv_from_equiv};
ghost use Rattle.em_job.specs.Making as making;
ghost use Rattle.em_job.specs.Effects.{Makes};
ghost use Rattle.em_task.specs.contracts.job.JobPartialEq.TheImpl as job_eq;
ghost use Rattle.em_task.specs.contracts.job.JobEq.TheImpl.Laws as job_eq_laws;
ghost use Rattle.em_job.specs.Equal.{same_meaning};

use em_base::NoMemory;
use em_run::Spec;
use em_task::Job;
use em_tree::Outcome;
use std::alloc::Global;
use std::marker::Model;
use std::sync::Arc;

/// A job whose `base` is at most 2^62 and whose fuel is at most 1,000,000 units. Copies share it,
/// in any threads. Contracts see the job.
#[derive(Drop)]
pub struct JobSpec {
    held: Arc<Job, Global>,
}

impl Model for JobSpec {
    ghost use Rattle.std.specs.Prelude.{◌≤◌, ◌^◌};
    ghost use Rattle.std.specs.Arc.{arc_value};
    ghost use Rattle.em_task.specs.declared.job.Job.{Job};
    ghost use Rattle.em_task.specs.contracts.job.Job as job;

    ghost Value = { Job };

    ghost coded = { job.the_row.coded };

    ghost view = { λ s. arc_value s.held };

    ghost invariant = { λ s. ((arc_value s.held).base ≤ 2 ^ 62)
        × ((arc_value s.held).fuel ≤ 1000000) };
}

impl JobSpec {
    /// The spec of this job. The job isn't copied.
    pub fn new(alloc: Global, job: Job) -> Result<JobSpec, NoMemory>
        requires base { job.base ≤ 2 ^ 62 }
        requires fuel { job.fuel ≤ 1000000 }
        ensures { IfOk result (λ s. s ≡ job) }
    {
        let held = Arc::new(alloc, job)?;
        Ok(JobSpec { held })
    }

    /// The same spec once more. Nothing is copied.
    fn share(&self) -> Result<JobSpec, NoMemory>
        ensures { IfOk result (λ s. s ≡ self.now) }
    {
        let held = Arc::try_clone(&self.held)?;
        Ok(JobSpec { held })
    }

    /// The job.
    pub fn get(&self) -> &Job
        ensures job { result.now ≡ self.now }
        ensures base { self.now.base ≤ 2 ^ 62 }
        ensures fuel { self.now.fuel ≤ 1000000 }
    {
        &self.held
    }
}

impl PartialEq for JobSpec {
    ghost eq = { job_eq.ghosts.eq };

    ghost laws = { partial_equiv_from_equiv job_eq_laws.laws-law };

    fn eq(&self, other: &Self) -> bool {
        self.get() == other.get()
    }
}

impl Eq for JobSpec {
    ghost laws = { job_eq_laws.laws-law };
}

impl Spec for JobSpec {
    ghost job_of = { λ j. j.job };

    ghost ends_after = { λ j. making.ends_after j.flags };

    ghost makes = { Makes };

    ghost means_same = { same_meaning };

    fn job(&self) -> u32 {
        self.get().job
    }

    fn ends(&self, o: &Outcome) -> bool {
        self.get().flags.ends_after(o)
    }

    fn copy(&self, _alloc: Global) -> Result<JobSpec, NoMemory> {
        Ok(self.share()?)
    }
}
