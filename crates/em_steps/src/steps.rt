//! A job that can pause: at each line that begins a make within a make.
ghost use Rattle.std.specs.Prelude.{◌≡◌, ◌<◌, IfOk, drop, map, option_map};
ghost use Rattle.em_steps.specs.Laps as laps;
ghost use Rattle.em_steps.specs.Laps.{back_of, plot_of};
ghost use Rattle.em_steps.specs.declared.steps.Progress.TheVariants.{Paused};
ghost use Rattle.em_steps.specs.Pausing.{IsProgress, IsStopped, IfPaused, heard};
ghost use Rattle.em_script.specs.Strands.{Back, IfSub, IsSent, Turned};

use crate::laps::{Lap, run_lap};
use em_base::{NoMemory, Seq, Text};
use em_exec::{SubLine, Turn};
use em_expand::Spoken;
use em_job::{
    Job, JobSpec, JobStop, LineEnd, ParsedLine, Prepared, RecipeStart, after_line, end_of,
    prepare_job, put_stop, read_lines,
};
use em_run::Spec;
use em_tree::Outcome;
use em_vars::Vars;
use em_view::{Desk, View};
use std::alloc::Global;
use std::mem;

/// A job between two lines of its recipe.
#[derive(Drop)]
pub(crate) struct Halfway {
    pub(crate) opened: RecipeStart,
    pub(crate) lines: Seq<ParsedLine>,
    /// The place of the line that has begun a make, or that is next.
    pub(crate) at: usize,
    /// The variables of its shells, if they were made.
    pub(crate) env: Option<Vars>,
}

/// Where a job stands.
#[derive(Drop)]
pub(crate) enum Stage {
    /// It hasn't begun.
    Fresh,
    /// Its line waits for a make.
    Waiting(Halfway),
    /// That has ended with this status.
    Answered(Halfway, u8),
    /// That has spent the fuel.
    Spent(Halfway),
    /// It has ended.
    Closed,
}

/// How far a job has come.
#[derive(Drop)]
pub(crate) enum Progress {
    Ended(Outcome),
    Paused(Halfway, SubLine),
}

/// A job that runs over a desk of its owner, up to each line that begins a make within a make.
#[derive(Drop)]
pub struct JobSteps {
    spec: JobSpec,
    known: Option<Seq<Outcome>>,
    depth: u8,
    stage: Stage,
}

/// The job goes no further.
fn stopped(spoken: &mut Spoken, job: &Job, stop: JobStop) -> Result<Progress, NoMemory>
    ensures { IfOk result (IsStopped job.now stop spoken.old spoken.new) }
{
    if let JobStop::NoMemory = stop {
        return Err(NoMemory);
    }
    put_stop(&mut spoken.said, job.plan.get().target.bytes(), &stop)?;
    Ok(Progress::Ended(end_of(stop)))
}

/// The job pauses at this line, which begins a make.
fn paused(
    opened: RecipeStart,
    lines: Seq<ParsedLine>,
    at: usize,
    env: Option<Vars>,
    line: SubLine,
) -> Progress
    ensures { result ≡ Paused
        (record { opened = opened; lines = lines; at = at; env = env }) line }
{
    let half = Halfway {
        opened,
        lines,
        at,
        env,
    };
    Progress::Paused(half, line)
}

/// Does the lines from here on.
fn go_lines<V: View>(
    alloc: Global,
    desk: &mut Desk<V>,
    spoken: &mut Spoken,
    job: &Job,
    depth: u8,
    half: Halfway,
) -> Result<Progress, NoMemory>
    ensures went { IsProgress V.tells desk.old desk.new spoken.old spoken.new job.now depth result
        (laps.lines_plot job.now depth half.opened
        (map laps.meant (drop half.at half.lines)) half.env) }
    ensures sent { IfPaused result IsSent }
    ensures burns { IfPaused result (λ l. desk.new.work.fuel < desk.old.work.fuel) }
{
    let Halfway {
        opened,
        lines,
        mut at,
        mut env,
    } = half;
    while let Some(ready) = lines.get(at) {
        match run_lap(alloc, desk, spoken, job, depth, &opened, env, ready) {
            Ok(Lap::Next(next)) => {
                env = next;
                at += 1;
            }
            Ok(Lap::Ended(outcome)) => return Ok(Progress::Ended(outcome)),
            Ok(Lap::Begins(next, line)) => return Ok(paused(opened, lines, at, next, line)),
            Err(stop) => return stopped(spoken, job, stop),
        }
    }
    Ok(Progress::Ended(Outcome::Made))
}

/// Does a job from its begin on.
fn go_fresh<V: View>(
    alloc: Global,
    desk: &mut Desk<V>,
    spoken: &mut Spoken,
    job: &Job,
    depth: u8,
    known: Option<&[Outcome]>,
) -> Result<Progress, NoMemory>
    ensures went { IsProgress V.tells desk.old desk.new spoken.old spoken.new job.now depth result
        (laps.fresh job.now depth (option_map (λ o. o.now) known.entry)) }
    ensures sent { IfPaused result IsSent }
    ensures burns { IfPaused result (λ l. desk.new.work.fuel < desk.old.work.fuel) }
{
    match prepare_job(alloc, desk, spoken, known, job) {
        Ok(Prepared::Ended(outcome)) => Ok(Progress::Ended(outcome)),
        Ok(Prepared::Lines(opened, lines)) => {
            let half = Halfway {
                opened,
                lines: read_lines(alloc, lines)?,
                at: 0,
                env: None,
            };
            go_lines(alloc, desk, spoken, job, depth, half)
        }
        Err(stop) => stopped(spoken, job, stop),
    }
}

/// Goes on behind a line whose make has ended with this status.
fn go_answered<V: View>(
    alloc: Global,
    desk: &mut Desk<V>,
    spoken: &mut Spoken,
    job: &Job,
    depth: u8,
    half: Halfway,
    status: u8,
) -> Result<Progress, NoMemory>
    ensures went { IsProgress V.tells desk.old desk.new spoken.old spoken.new job.now depth result
        (laps.going_on job.now depth half (Back.Status status)) }
    ensures sent { IfPaused result IsSent }
    ensures burns { IfPaused result (λ l. desk.new.work.fuel < desk.old.work.fuel) }
{
    let Halfway {
        opened,
        lines,
        at,
        env,
    } = half;
    let Some(ready) = lines.get(at) else {
        return Ok(Progress::Ended(Outcome::Made));
    };
    let stamps = opened.stamps.items();
    match after_line(alloc, desk, spoken, job, stamps, &ready.placed, env, status) {
        Ok(LineEnd::Next(env)) => {
            let half = Halfway {
                opened,
                lines,
                at: at + 1,
                env,
            };
            go_lines(alloc, desk, spoken, job, depth, half)
        }
        Ok(LineEnd::Ended(outcome)) => Ok(Progress::Ended(outcome)),
        Err(stop) => stopped(spoken, job, stop),
    }
}

/// Ends a job whose line's make has spent the fuel.
fn go_spent<V: View>(
    alloc: Global,
    desk: &mut Desk<V>,
    spoken: &mut Spoken,
    job: &Job,
    depth: u8,
    half: Halfway,
) -> Result<Progress, NoMemory>
    ensures went { IsProgress V.tells desk.old desk.new spoken.old spoken.new job.now depth result
        (laps.going_on job.now depth half Back.Spent) }
    ensures sent { IfPaused result IsSent }
    ensures burns { IfPaused result (λ l. desk.new.work.fuel < desk.old.work.fuel) }
{
    let Some(ready) = half.lines.get(half.at) else {
        return Ok(Progress::Ended(Outcome::Made));
    };
    stopped(spoken, job, JobStop::Spent(ready.placed.place.copy(alloc)?))
}

/// The outcomes of the prerequisites' jobs, where they are known.
fn outcomes_of(known: &Option<Seq<Outcome>>) -> Option<&[Outcome]>
    ensures { option_map (λ o. o.now) result ≡ known.now }
{
    match known {
        Some(outcomes) => Some(outcomes.items()),
        None => None,
    }
}

/// How a job stands whose line's make has ended with this status.
fn answered(stage: Stage, status: u8) -> Stage
    ensures { result ≡ heard stage (Back.Status status) }
{
    match stage {
        Stage::Waiting(half) => Stage::Answered(half, status),
        _ => Stage::Closed,
    }
}

/// How a job stands whose line's make has spent the fuel.
fn out_of_fuel(stage: Stage) -> Stage
    ensures { result ≡ heard stage Back.Spent }
{
    match stage {
        Stage::Waiting(half) => Stage::Spent(half),
        _ => Stage::Closed,
    }
}

impl JobSteps {
    /// The job of this spec, which hasn't begun. `known` are the outcomes of its prerequisites'
    /// jobs, one for each time that the job asks for one: the jobs of the normal prerequisites in
    /// order, and then those of the order-only ones; where it has too few, the job ends as if such
    /// a job hadn't been made. Without `known` the desk is asked. Each costs a unit in either case.
    /// `depth` is that of the make that runs the job; the outermost has depth 0.
    ///
    /// The job isn't copied.
    pub fn begin(
        alloc: Global,
        spec: &JobSpec,
        known: Option<Seq<Outcome>>,
        depth: u8,
    ) -> Result<JobSteps, NoMemory>
        ensures { IfOk result (λ s. plot_of s ≡ laps.fresh_plot spec.now depth known) }
    {
        Ok(JobSteps {
            spec: spec.copy(alloc)?,
            known,
            depth,
            stage: Stage::Fresh,
        })
    }

    /// Does what there is to do.
    fn go_on<V: View>(
        &self,
        alloc: Global,
        desk: &mut Desk<V>,
        spoken: &mut Spoken,
        stage: Stage,
    ) -> Result<Progress, NoMemory>
        ensures went { IsProgress V.tells desk.old desk.new spoken.old spoken.new
            self.now.spec self.now.depth result
            (laps.going_by self.now.spec self.now.depth self.now.known stage) }
        ensures sent { IfPaused result IsSent }
        ensures burns { IfPaused result (λ l. desk.new.work.fuel < desk.old.work.fuel) }
    {
        let job = self.spec.get();
        let depth = self.depth;
        match stage {
            Stage::Fresh => {
                let known = outcomes_of(&self.known);
                go_fresh(alloc, desk, spoken, job, depth, known)
            }
            Stage::Answered(half, status) => {
                go_answered(alloc, desk, spoken, job, depth, half, status)
            }
            Stage::Spent(half) => go_spent(alloc, desk, spoken, job, depth, half),
            Stage::Waiting(_) | Stage::Closed => Ok(Progress::Ended(Outcome::Made)),
        }
    }

    /// Runs the job up to its next line that begins a make, or to its end, and appends to `out`
    /// what it says. `Sub` comes exactly where the job comes, before its end, to a line that runs
    /// and is one simple command without assignments and redirections whose words begin with
    /// `emake` or `make`, or `cd W &&` before such a command, where W comes to one field; and
    /// neither its words nor its directory nor its depth are refused. Where W comes to no field or
    /// to several, the line runs as any other one. A line whose words or directory are refused has
    /// the refusal as its output and status 2; one that would begin a make at a depth above 8 is a
    /// refused construct. After `Sub` the next call goes on from what `resume` or `spent` was told;
    /// a job that waits for them, or that has ended, has nothing left to do and ends as made.
    ///
    /// `NoMemory` may come at any time; what was said till then stands in `out`, and the job has
    /// nothing left to do.
    ///
    /// The cost is that of the job by `JobWork`, and for a line that begins a make one of what the
    /// desk takes for its words and its directory.
    pub fn step<V: View>(
        &mut self,
        alloc: Global,
        desk: &mut Desk<V>,
        out: &mut Text,
    ) -> Result<Turn, NoMemory>
        ensures turned { Turned V.tells desk.old desk.new out.old out.new result
            (plot_of self.old) (back_of self.new) }
        ensures left { plot_of self.new ≡ laps.ended_plot }
        ensures sent { IfSub result IsSent }
        ensures burns { IfSub result (λ l. desk.new.work.fuel < desk.old.work.fuel) }
    {
        let stage = mem::replace(&mut self.stage, Stage::Closed);
        let mut spoken = Spoken {
            said: mem::replace(out, Text::new(alloc)),
            evals: Seq::new(alloc),
        };
        let progress = self.go_on(alloc, desk, &mut spoken, stage);
        *out = spoken.said;
        match progress? {
            Progress::Ended(outcome) => Ok(Turn::Ended(outcome)),
            Progress::Paused(half, line) => {
                self.stage = Stage::Waiting(half);
                Ok(Turn::Sub(line))
            }
        }
    }

    /// Tells the job that the make which its line has begun has ended with this status.
    pub fn resume(&mut self, status: u8)
        ensures { plot_of self.new ≡ back_of self.old (Back.Status status) }
    {
        self.stage = answered(mem::replace(&mut self.stage, Stage::Closed), status);
    }

    /// Tells the job that the make which its line has begun has spent the fuel in reading its
    /// makefiles or in planning. The job then ends at the line, which says so.
    pub fn spent(&mut self)
        ensures { plot_of self.new ≡ back_of self.old Back.Spent }
    {
        self.stage = out_of_fuel(mem::replace(&mut self.stage, Stage::Closed));
    }
}
