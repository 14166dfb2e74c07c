//! The builds, one behind another.
ghost use Rattle.std.specs.Prelude.{◌≡◌, ◌++◌, IfOk};
ghost use Rattle.em_host.specs.Outside.{Tells};
ghost use Rattle.em_program.specs.Course.{Follows, faults_after};
ghost use Rattle.em_program.specs.Endings as endings;
ghost use Rattle.em_program.specs.Endings.{IsRan, IsRun, tally_in};
ghost use Rattle.em_program.specs.Projects.{IsReady};
ghost use Rattle.em_program.specs.Rounds.{IsStep};

use crate::ending::finish;
use crate::project::{Project, Terms};
use crate::rounds::{BuildStep, behind, joined};
use crate::site::Earlier;
use crate::status::has_ended;
use crate::stop::ProgramEnd;
use crate::verdict::BuildStatus;
use em_base::{NoMemory, Seq};
use em_engine::Note;
use em_host::Host;
use em_nesting::{MakeSpec, MakeWork};
use em_run::Work;
use em_workers::{Built, Gate, OpenGate, build};
use std::alloc::Global;
use std::sync::Wait;
use std::thread::Threads;

/// What a run comes to, unless it is refused or breaks off.
#[derive(Drop)]
pub struct Finished {
    pub verdict: BuildStatus,
    /// One for each job of the serial runs, in order.
    pub notes: Seq<Note>,
    /// How many jobs the last plan has.
    pub jobs: usize,
    /// How many nodes the last tree has.
    pub nodes: usize,
}

/// What the jobs of a project leave, once all have run or one has ended the run.
#[derive(Drop)]
pub struct JobsDone {
    pub terms: Terms,
    pub built: Built,
}

/// Equal waits.
fn copied(alloc: Global, waits: &[Seq<u32>]) -> Result<Seq<Seq<u32>>, NoMemory>
    ensures { IfOk result (λ copy. copy ≡ waits.now) }
{
    let mut copy = Seq::new(alloc);
    for jobs in waits {
        copy.push(Seq::from_vec(Vec::from_slice(alloc, jobs.items())?))?;
    }
    Ok(copy)
}

/// Runs the jobs of the project, with the workers of its order.
fn ran<R: Threads + Wait + Sync, W: Work<MakeSpec> + Sync, G: Gate + Sync, H: Host>(
    rt: &R,
    alloc: Global,
    project: Project,
    w: &W,
    gate: &G,
    host: &mut H,
) -> Result<JobsDone, ProgramEnd>
    requires { IsReady project }
    ensures ran { IsRan project result (H.told host.old) (H.told host.new) }
    ensures faults { H.faults host.new ≡ faults_after result (H.faults host.old) }
{
    let Project {
        terms,
        start,
        specs,
    } = project;
    let waits = copied(alloc, terms.waits.items())?;
    let workers = terms.order.workers;
    let built = build(rt, alloc, start, specs, waits, workers, w, gate, host)?;
    Ok(JobsDone { terms, built })
}

/// The end, behind the last build: says the closing text and replaces the files.
fn ended<H: Host>(
    alloc: Global,
    asked: bool,
    early: bool,
    done: JobsDone,
    host: &mut H,
) -> Result<Finished, ProgramEnd>
    ensures told { Follows
        (endings.last_by done.terms done.built.notes asked done.built.fuel early done.built.state)
        (tally_in result) (H.told host.old) (H.told host.new) }
    ensures faults { H.faults host.new ≡ faults_after result (H.faults host.old) }
    ensures notes { IfOk result (λ f. f.notes ≡ done.terms.earlier.notes ++ done.built.notes) }
{
    let JobsDone { terms, built } = done;
    let verdict = finish(
        alloc,
        &terms,
        &built.notes,
        asked,
        &built.fuel,
        early,
        &built.state,
        host,
    )?;
    let jobs = terms.plan.jobs.len();
    let nodes = built.state.tree.count();
    let Terms {
        order: _,
        old: _,
        earlier,
        plan: _,
        waits: _,
        goals: _,
    } = terms;
    let Earlier {
        notes,
        outcomes: _,
        shown: _,
    } = earlier;
    let Built {
        state: _,
        notes: last,
        fuel: _,
    } = built;
    Ok(Finished {
        verdict,
        notes: joined(notes, last)?,
        jobs,
        nodes,
    })
}

/// The builds from this step on. Each round has one call in another: at most nine, with that of the
/// goals.
#[cycle(builds)]
pub fn run_from<R: Threads + Wait + Sync, H: Host>(
    rt: &R,
    alloc: Global,
    step: BuildStep,
    host: &mut H,
) -> Result<Finished, ProgramEnd>
    requires { IsStep step }
    ensures told { Tells (IsRun step result) (H.told host.old) (H.told host.new) }
    ensures faults { H.faults host.new ≡ faults_after result (H.faults host.old) }
{
    let BuildStep { project, remaking } = step;
    let work = MakeWork::new();
    let done = ran(rt, alloc, project, &work, &OpenGate, host)?;
    let early = has_ended(&done.terms.order, done.built.state.outcomes.items());
    match remaking {
        None => {
            let asked = done.terms.order.question;
            ended(alloc, asked, early, done, host)
        }
        Some(remaking) => {
            if early {
                return ended(alloc, remaking.order.question, early, done, host);
            }
            let step = behind(alloc, remaking, done, host)?;
            run_from(rt, alloc, step, host)
        }
    }
}
