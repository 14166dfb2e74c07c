//! The outcomes that are known to a job of a make within a make.
ghost use Rattle.std.specs.Prelude.{◌≡◌, ◌++◌, IfOk, OnOk, map};
ghost use Rattle.em_submake.specs.Submakes as submakes;

use em_base::{NoMemory, Seq};
use em_plan::{PlanJob, Pre};
use em_tree::Outcome;
use std::alloc::Global;

/// How the job of this number has ended.
fn outcome_in(alloc: Global, ended: &[Outcome], job: u32) -> Result<Outcome, NoMemory>
    ensures { IfOk result (λ o. o ≡ submakes.outcome_in ended.now job) }
{
    match ended.get(job as usize) {
        Some(outcome) => Ok(outcome.copy(alloc)?),
        None => Ok(Outcome::Spent),
    }
}

/// Adds how the jobs of these numbers have ended.
fn add_known(
    alloc: Global,
    known: &mut Vec<Outcome>,
    ended: &[Outcome],
    jobs: &[u32],
) -> Result<(), NoMemory>
    ensures { OnOk result (known.new.items
        ≡ known.old.items ++ map (submakes.outcome_in ended.now) jobs.now) }
{
    for job in jobs {
        known.push(outcome_in(alloc, ended, *job)?)?;
    }
    Ok(())
}

/// Adds how the jobs of these prerequisites have ended.
fn add_all(
    alloc: Global,
    known: &mut Vec<Outcome>,
    ended: &[Outcome],
    pres: &[Pre],
) -> Result<(), NoMemory>
    ensures { OnOk result (known.new.items
        ≡ known.old.items ++ submakes.known_in ended.now pres.now) }
{
    for pre in pres {
        add_known(alloc, known, ended, pre.jobs.items())?;
    }
    Ok(())
}

/// Of these outcomes those for which the job asks, one for each time that it asks.
pub(crate) fn known_of(
    alloc: Global,
    ended: &[Outcome],
    planned: &PlanJob,
) -> Result<Seq<Outcome>, NoMemory>
    ensures { IfOk result (λ os. os ≡ submakes.known_of ended.now planned.now) }
{
    let mut known = Vec::new(alloc);
    add_all(alloc, &mut known, ended, planned.normal.items())?;
    add_all(alloc, &mut known, ended, planned.order.items())?;
    Ok(Seq::from_vec(known))
}
