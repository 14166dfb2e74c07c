//! What a job with makes within it is asked to do.
ghost use Rattle.std.specs.Prelude.{◌≡◌, ◌≤◌, ◌^◌, IfOk};
ghost use Rattle.std.specs.Cmp.{partial_equiv_from_equiv};
ghost use Rattle.em_nesting.specs.Alike.{same_meaning};
ghost use Rattle.em_nesting.specs.Nested.{MakesAll};
ghost use Rattle.em_task.specs.Endings.{ends_after};
ghost use Rattle.em_task.specs.contracts.job.JobPartialEq.TheImpl as job_eq;
ghost use Rattle.em_task.specs.contracts.job.JobEq.TheImpl.Laws as job_eq_laws;

use em_base::NoMemory;
use em_job::{Job, JobSpec};
use em_run::Spec;
use em_tree::Outcome;
use std::alloc::Global;
use std::marker::Model;

/// A job of the outermost make, with the makes that its lines begin. Its `base` is at most 2^62 and
/// its fuel at most 1,000,000 units. Copies share the job, in any threads. Contracts see the job.
#[derive(Drop)]
pub struct MakeSpec {
    job: JobSpec,
}

impl Model for MakeSpec {
    ghost use Rattle.std.specs.Prelude.{◌≤◌, ◌^◌};
    ghost use Rattle.em_task.specs.declared.job.Job.{Job};
    ghost use Rattle.em_task.specs.contracts.job.Job as task;

    ghost Value = { Job };

    ghost coded = { task.the_row.coded };

    ghost view = { λ s. s.job };

    ghost invariant = { λ s. (s.job.base ≤ 2 ^ 62) × (s.job.fuel ≤ 1000000) };
}

impl MakeSpec {
    /// The spec of this job. Nothing is copied, and it takes no memory.
    pub fn new(job: JobSpec) -> MakeSpec
        ensures { result ≡ job }
    {
        MakeSpec { job }
    }

    /// The job's own spec, without the makes within it.
    pub fn job(&self) -> &JobSpec
        ensures { result.now ≡ self.now }
    {
        &self.job
    }

    /// The job.
    pub fn get(&self) -> &Job
        ensures job { result.now ≡ self.now }
        ensures base { self.now.base ≤ 2 ^ 62 }
        ensures fuel { self.now.fuel ≤ 1000000 }
    {
        self.job.get()
    }
}

impl PartialEq for MakeSpec {
    ghost eq = { job_eq.ghosts.eq };

    ghost laws = { partial_equiv_from_equiv job_eq_laws.laws-law };

    fn eq(&self, other: &Self) -> bool {
        self.job == other.job
    }
}

impl Eq for MakeSpec {
    ghost laws = { job_eq_laws.laws-law };
}

impl Spec for MakeSpec {
    ghost job_of = { λ j. j.job };

    ghost ends_after = { λ j. ends_after j.flags };

    ghost makes = { MakesAll };

    ghost means_same = { same_meaning };

    fn job(&self) -> u32 {
        self.get().job
    }

    fn ends(&self, o: &Outcome) -> bool {
        self.get().flags.ends_after(o)
    }

    fn copy(&self, alloc: Global) -> Result<MakeSpec, NoMemory> {
        let job = self.job.copy(alloc)?;
        Ok(MakeSpec { job })
    }
}
