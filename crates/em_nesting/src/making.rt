//! The jobs of a make within a make.
ghost use Rattle.std.specs.Prelude.{◌≡◌, ◌≤◌, ◌^◌, None, length, IfOk};
ghost use Rattle.em_job.specs.Making.{jobs_of};
ghost use Rattle.em_nesting.specs.Nested.{making_of};
ghost use Rattle.em_path.specs.Paths.{root_text};
ghost use Rattle.em_path.specs.Reading.{read_fault};

use crate::spec::MakeSpec;
use crate::turns::Turns;
use em_base::{NoMemory, Seq};
use em_cmdline::Order;
use em_exec::SubLine;
use em_job::{JobSpec, spec_of};
use em_plan::Plan;
use em_rules::Book;
use em_steps::JobSteps;
use em_submake::Maker;
use em_task::SharedVars;
use em_tree::Outcome;
use std::alloc::Global;

/// Makes the jobs of makefiles.
#[derive(Drop)]
pub(crate) struct JobMaker;

impl Maker<Turns> for JobMaker {
    ghost job_of = { λ m. making_of };

    fn job(
        &self,
        alloc: Global,
        line: &SubLine,
        plan: &Plan,
        number: u32,
        book: &Book,
        vars: &SharedVars,
        known: Seq<Outcome>,
    ) -> Result<Turns, NoMemory> {
        let planned = &plan.jobs.items()[number as usize];
        let spec = spec_of(alloc, book, vars, &line.order, 0, number, planned)?;
        let steps = JobSteps::begin(alloc, &spec, Some(known), line.depth)?;
        Ok(Turns { steps })
    }
}

/// These specs, each with the makes within its job.
fn with_makes(alloc: Global, jobs: Vec<JobSpec>) -> Result<Vec<MakeSpec>, NoMemory>
    ensures { IfOk result (λ all. all.items ≡ jobs.items) }
{
    let mut all = Vec::new(alloc);
    for job in jobs {
        all.push(MakeSpec::new(job))?;
    }
    Ok(all)
}

/// The specs of a plan's jobs with the makes within them, each with the number at which it stands.
/// Errors and cost are those of `em_job::specs`, and a step for each job.
pub fn specs(
    alloc: Global,
    plan: &Plan,
    book: &Book,
    order: &Order,
    base: u64,
) -> Result<Vec<MakeSpec>, NoMemory>
    requires base { base ≤ 2 ^ 62 }
    requires fuel { order.now.fuel ≤ 1000000 }
    requires dir { read_fault root_text order.now.dir ≡ None }
    requires jobs { length plan.now.jobs ≤ 65536 }
    ensures { IfOk result (λ ss. ss.items ≡ jobs_of book.now order.now base plan.now.jobs) }
{
    let jobs = em_job::specs(alloc, plan, book, order, base)?;
    with_makes(alloc, jobs)
}
