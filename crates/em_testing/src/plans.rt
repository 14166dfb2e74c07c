//! Plans: of each job the path that it reads and the one that it makes.
ghost use Rattle.std.specs.Prelude.{◌≡◌, ◌↔◌, ◌<◌, ℕ, [], IsTrue, All, slice_index_or};
ghost use Rattle.em_engine.specs.Fronts.{AreNumbered};

use crate::links::{Link, root, run_on};
use em_base::{NoMemory, Seq};
use em_engine::{Board, Front};
use em_path::Path;
use em_run::{Run, Spec};
use em_shared::Shared;
use em_tree::State;
use std::alloc::Global;
use std::test::Fail;

/// What each job reads, and what it makes.
pub type LinkPlan<'a> = &'a [(&'static str, &'static str)];

/// Three jobs, each of which reads the file of the one before. The first reads a file that isn't
/// there.
pub static THREE: [(&str, &str); 3] = [("/z", "/a"), ("/a", "/b"), ("/b", "/c")];

/// The path of this text.
pub fn path_of(alloc: Global, text: &str) -> Result<Path, Fail> {
    Ok(Path::from_text(alloc, text.as_bytes())?.ok_or("no path")?)
}

fn link_of(alloc: Global, job: u32, part: &(&str, &str)) -> Result<Link, Fail> {
    let before = path_of(alloc, part.0)?;
    let path = path_of(alloc, part.1)?;
    Ok(Link { job, before, path })
}

/// The jobs of the plan, with the numbers from 0 on.
pub fn links_of(alloc: Global, plan: LinkPlan<'_>) -> Result<Seq<Link>, Fail> {
    let mut links = Seq::new(alloc);
    for (job, part) in (0..=u32::MAX).zip(plan) {
        let link = link_of(alloc, job, part)?;
        links.push(link)?;
    }
    Ok(links)
}

/// Whether job i has the number i.
pub fn are_numbered<S: Spec>(specs: &[S]) -> bool
    ensures { IsTrue result → AreNumbered S.job_of specs.now }
{
    for i in 0..specs.len() {
        if specs[i].job() as usize != i {
            return false;
        }
    }
    true
}

/// What each job waits for: nothing, or where that is declared the one before.
pub fn waits_of(
    alloc: Global,
    plan: LinkPlan<'_>,
    is_declared: bool,
) -> Result<Seq<Seq<u32>>, NoMemory> {
    let mut waits = Seq::new(alloc);
    for (job, _part) in (0..=u32::MAX).zip(plan) {
        let mut wait = Seq::new(alloc);
        if is_declared && job > 0 {
            wait.push(job - 1)?;
        }
        waits.push(wait)?;
    }
    Ok(waits)
}

fn all_below(jobs: &[u32], job: usize) -> bool
    ensures { IsTrue result ↔ All (λ k. k < job) jobs.now }
{
    jobs.iter().all(|k| (*k as usize) < job)
}

/// Whether each job waits for jobs below it.
pub fn are_lower(waits: &[Seq<u32>]) -> bool
    ensures { IsTrue result → (j : ℕ) → All (λ k. k < j) (slice_index_or waits.now j []) }
{
    for job in 0..waits.len() {
        if !all_below(waits[job].items(), job) {
            return false;
        }
    }
    true
}

/// The run of a job of the plan on a state.
pub fn run_of(
    alloc: Global,
    plan: LinkPlan<'_>,
    job: u32,
    state: &State,
) -> Result<Run<Link>, Fail> {
    let links = links_of(alloc, plan)?;
    let link = links.get(job as usize).ok_or("no job")?;
    Ok(run_on(alloc, link, state)?)
}

/// Its run over a root alone.
pub fn run_at_root(alloc: Global, plan: LinkPlan<'_>, job: u32) -> Result<Run<Link>, Fail> {
    let state = root(alloc)?;
    run_of(alloc, plan, job, &state)
}

/// A front of these jobs, where job i has the number i.
pub fn front_from<S: Spec>(alloc: Global, start: State, specs: Seq<S>) -> Result<Front<S>, Fail>
    requires { start.outcomes ≡ [] }
{
    if specs.len() > 100 || !are_numbered(specs.items()) {
        return Err("numbers".into());
    }
    Ok(Front::new(alloc, start, specs)?)
}

/// A front of the plan's jobs over a root alone.
pub fn front_of(alloc: Global, plan: LinkPlan<'_>) -> Result<Front<Link>, Fail> {
    let links = links_of(alloc, plan)?;
    let start = root(alloc)?;
    front_from(alloc, start, links)
}

/// A shared board of jobs, where each waits for jobs below it.
pub fn shared_from<S: Spec>(
    alloc: Global,
    start: State,
    waits: Seq<Seq<u32>>,
) -> Result<Shared<S>, Fail> {
    if waits.len() > 100 || !are_lower(waits.items()) {
        return Err("waits".into());
    }
    let board = Board::new(alloc, start, waits)?;
    Ok(Shared::new(board))
}

/// A shared board of the plan's jobs over a root alone.
pub fn shared_of(
    alloc: Global,
    plan: LinkPlan<'_>,
    is_declared: bool,
) -> Result<Shared<Link>, Fail> {
    let waits = waits_of(alloc, plan, is_declared)?;
    let start = root(alloc)?;
    shared_from(alloc, start, waits)
}
