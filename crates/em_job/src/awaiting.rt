//! What a job asks of the jobs of its prerequisites.
ghost use Rattle.std.specs.Prelude.{◌≡◌, ◌&&◌, [], ◌∷◌, ◌++◌, true, None, option_map, slice_get, OnOk};
ghost use Rattle.em_expand.specs.declared.spoken.Spoken.{Spoken};
ghost use Rattle.em_job.specs.Stops.{is_free};
ghost use Rattle.em_job.specs.Deciding as deciding;
ghost use Rattle.em_view.specs.Steps.{Does};

use crate::stop::{JobStop, early};
use em_base::{NoMemory, Seq, Text};
use em_plan::Pre;
use em_task::Job;
use em_tree::Outcome;
use em_view::{Desk, View};
use std::alloc::Global;

/// A normal prerequisite whose jobs have ended.
#[derive(Drop)]
pub(crate) struct Awaited {
    pub(crate) name: Text,
    /// Whether it makes remaking due by itself.
    pub(crate) renewed: bool,
}

/// Whether a job goes on with a prerequisite that ended so.
fn goes_on(outcome: Option<&Outcome>) -> bool
    ensures { result ≡ deciding.goes_on (option_map (λ o. o.now) outcome.entry) }
{
    matches!(
        outcome,
        Some(Outcome::Upto) | Some(Outcome::Counted) | Some(Outcome::Made)
    )
}

/// Whether it makes remaking due by itself.
fn is_renewed(dry: bool, outcome: Option<&Outcome>) -> bool
    ensures { result ≡ deciding.is_renewed dry (option_map (λ o. o.now) outcome.entry) }
{
    match outcome {
        Some(Outcome::Counted) => true,
        Some(Outcome::Made) => dry,
        _ => false,
    }
}

/// What the end of a prerequisite's job means.
#[derive(Clone, Copy)]
struct Ending {
    /// Whether a job goes on with it.
    fine: bool,
    /// Whether it makes remaking due by itself.
    renewed: bool,
}

/// What an outcome means.
fn ending_of(dry: bool, outcome: Option<&Outcome>) -> Ending
    ensures { result ≡ deciding.ending_of dry (option_map (λ o. o.now) outcome.entry) }
{
    Ending {
        fine: goes_on(outcome),
        renewed: is_renewed(dry, outcome),
    }
}

/// The outcomes that are left once so many were taken.
fn later(known: Option<&[Outcome]>, taken: usize) -> Option<&[Outcome]>
    ensures { option_map (λ o. o.now) result
        ≡ deciding.later taken (option_map (λ o. o.now) known.entry) }
{
    let outcomes = known?;
    let (_, left) = outcomes.split_at(taken.min(outcomes.len()));
    Some(left)
}

/// Those that are left behind these prerequisites.
fn behind<'a>(known: Option<&'a [Outcome]>, pres: &[Pre]) -> Option<&'a [Outcome]>
    ensures { option_map (λ o. o.now) result
        ≡ deciding.behind pres.now (option_map (λ o. o.now) known.entry) }
{
    let mut left = known;
    for pre in pres {
        left = later(left, pre.jobs.len());
    }
    left
}

/// How a job of a prerequisite ended, by the desk's answer.
fn await_desk<V: View>(desk: &mut Desk<V>, dry: bool, job: u32) -> Result<Ending, JobStop>
    ensures { (s : Spoken) → Does is_free V.tells desk.old desk.new s s result
        (deciding.await_job None dry job) }
{
    match desk.outcome(job) {
        Ok(outcome) => Ok(ending_of(dry, outcome.as_ref())),
        Err(e) => Err(early(e)),
    }
}

/// The next of the outcomes.
fn next_of(outcomes: &[Outcome]) -> Option<&Outcome>
    ensures { option_map (λ o. o.now) result ≡ slice_get outcomes.now 0 }
{
    outcomes.first()
}

/// How a job of a prerequisite ended: the first of the outcomes that are known, for a unit, or else
/// the desk's answer.
fn await_job<V: View>(
    desk: &mut Desk<V>,
    known: Option<&[Outcome]>,
    dry: bool,
    job: u32,
) -> Result<Ending, JobStop>
    ensures { (s : Spoken) → Does is_free V.tells desk.old desk.new s s result
        (deciding.await_job (option_map (λ o. o.now) known.entry) dry job) }
{
    let Some(outcomes) = known else {
        return await_desk(desk, dry, job);
    };
    match desk.take(1) {
        Ok(()) => Ok(ending_of(dry, next_of(outcomes))),
        Err(e) => Err(early(e)),
    }
}

/// Whether a job goes on with both, and whether one makes remaking due.
fn together(so_far: Ending, ending: Ending) -> Ending
    ensures { result ≡ deciding.together so_far ending }
{
    Ending {
        fine: so_far.fine && ending.fine,
        renewed: so_far.renewed || ending.renewed,
    }
}

/// How the jobs of one prerequisite ended, taken together. All of them are asked.
fn await_jobs<V: View>(
    desk: &mut Desk<V>,
    known: Option<&[Outcome]>,
    dry: bool,
    jobs: &[u32],
) -> Result<Ending, JobStop>
    ensures { (s : Spoken) → Does is_free V.tells desk.old desk.new s s result
        (deciding.await_jobs (option_map (λ o. o.now) known.entry) dry jobs.now
        deciding.unasked) }
{
    let mut left = known;
    let mut so_far = Ending {
        fine: true,
        renewed: false,
    };
    for job in jobs {
        let ending = await_job(desk, left, dry, *job)?;
        so_far = together(so_far, ending);
        left = later(left, 1);
    }
    Ok(so_far)
}

/// Adds a prerequisite whose jobs have ended so.
fn put_awaited(
    alloc: Global,
    so_far: &mut Seq<Awaited>,
    pre: &Pre,
    ending: Ending,
) -> Result<(), NoMemory>
    ensures { OnOk result (so_far.new ≡ so_far.old ++ deciding.awaited pre.now ending ∷ []) }
{
    let name = pre.name.copy(alloc)?;
    let renewed = ending.renewed;
    so_far.push(Awaited { name, renewed })
}

fn both(a: bool, b: bool) -> bool
    ensures { result ≡ a && b }
{
    a && b
}

/// The normal prerequisites, once their jobs have ended, and whether the job goes on with all of
/// them.
fn await_normal<V: View>(
    alloc: Global,
    desk: &mut Desk<V>,
    known: Option<&[Outcome]>,
    dry: bool,
    pres: &[Pre],
) -> Result<(Seq<Awaited>, bool), JobStop>
    ensures { (s : Spoken) → Does is_free V.tells desk.old desk.new s s result
        (deciding.await_normal (option_map (λ o. o.now) known.entry) dry pres.now [] true) }
{
    let mut left = known;
    let mut so_far = Seq::new(alloc);
    let mut fine = true;
    for pre in pres {
        let ending = await_jobs(desk, left, dry, pre.jobs.items())?;
        put_awaited(alloc, &mut so_far, pre, ending)?;
        fine = both(fine, ending.fine);
        left = later(left, pre.jobs.len());
    }
    Ok((so_far, fine))
}

/// Whether the job goes on with all of these, and did so before.
fn await_order<V: View>(
    desk: &mut Desk<V>,
    known: Option<&[Outcome]>,
    pres: &[Pre],
    before: bool,
) -> Result<bool, JobStop>
    ensures { (s : Spoken) → Does is_free V.tells desk.old desk.new s s result
        (deciding.await_order (option_map (λ o. o.now) known.entry) pres.now before) }
{
    let mut left = known;
    let mut fine = before;
    for pre in pres {
        let ending = await_jobs(desk, left, false, pre.jobs.items())?;
        fine = both(fine, ending.fine);
        left = later(left, pre.jobs.len());
    }
    Ok(fine)
}

/// The prerequisites, once their jobs have ended.
pub(crate) fn prerequisites<V: View>(
    alloc: Global,
    desk: &mut Desk<V>,
    known: Option<&[Outcome]>,
    job: &Job,
) -> Result<(Seq<Awaited>, bool), JobStop>
    ensures { (s : Spoken) → Does is_free V.tells desk.old desk.new s s result
        (deciding.prerequisites (option_map (λ o. o.now) known.entry) job.now) }
{
    let pres = job.plan.get().normal.items();
    let (normal, fine) = await_normal(alloc, desk, known, job.flags.dry, pres)?;
    let left = behind(known, pres);
    let fine = await_order(desk, left, job.plan.get().order.items(), fine)?;
    Ok((normal, fine))
}
