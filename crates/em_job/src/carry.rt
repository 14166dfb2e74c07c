//! The lines of a recipe, one after another.
ghost use Rattle.std.specs.Prelude.{◌≡◌, ◌==◌, None, Err, IfOk, IfErr};
ghost use Rattle.em_job.specs.Stops.{is_free};
ghost use Rattle.em_job.specs.Carrying as carrying;
ghost use Rattle.em_job.specs.Preparing as preparing;
ghost use Rattle.em_recipe.specs.Messages as messages;
ghost use Rattle.em_view.specs.Steps.{Does, Works};

use crate::fail::fail;
use crate::line::run_line;
use crate::prepare::{Placed, RecipeStart};
use crate::ready::{Course, ParsedLine};
use crate::stop::JobStop;
use em_base::Place;
use em_expand::Spoken;
use em_recipe::put_ignored;
use em_task::Job;
use em_tree::Outcome;
use em_vars::Vars;
use em_view::{Desk, View};
use std::alloc::Global;

fn say_ignored(spoken: &mut Spoken, job: &Job, place: &Place, status: u8) -> Result<(), JobStop>
    ensures { Works is_free spoken.old spoken.new result
        (preparing.say (messages.ignored place.now job.now.plan.target status)) }
{
    put_ignored(
        &mut spoken.said,
        place,
        job.plan.get().target.bytes(),
        status,
    )?;
    Ok(())
}

/// Whether failures of the line are ignored.
fn is_lenient(job: &Job, placed: &Placed) -> bool
    ensures { result ≡ carrying.is_lenient job.now placed.now }
{
    job.lenient || placed.command.marks.lenient
}

fn is_zero(status: u8) -> bool
    ensures { result ≡ status == 0 }
{
    status == 0
}

/// What follows a line.
#[derive(Drop)]
pub enum LineEnd {
    /// The next line runs, with these variables in its shell if they were made.
    Next(Option<Vars>),
    Ended(Outcome),
}

/// What follows a line that ended with this status: the next line, after status 0 and where the
/// line's failures are ignored, which is then said; else the job has failed, which is said too, and
/// under `.DELETE_ON_ERROR` its targets that have changed are deleted. `stamps` are those that the
/// targets had before the recipe.
///
/// Errors: `Spent` at the line, by the deletion; and `NoMemory`, which may come freely. What was
/// done and said till then stands. The cost is that of what is said, and for each target that may
/// be deleted at most two questions and one removal.
pub fn after_line<V: View>(
    alloc: Global,
    desk: &mut Desk<V>,
    spoken: &mut Spoken,
    job: &Job,
    stamps: &[Option<u64>],
    placed: &Placed,
    next: Option<Vars>,
    status: u8,
) -> Result<LineEnd, JobStop>
    ensures { Does is_free V.tells desk.old desk.new spoken.old spoken.new result
        (carrying.after_line job.now stamps.now placed.now next status) }
{
    if is_zero(status) {
        return Ok(LineEnd::Next(next));
    }
    if is_lenient(job, placed) {
        say_ignored(spoken, job, &placed.place, status)?;
        return Ok(LineEnd::Next(next));
    }
    let outcome = fail(alloc, desk, spoken, job, stamps, &placed.place, status)?;
    Ok(LineEnd::Ended(outcome))
}

/// Runs a line.
fn run_turn<V: View>(
    alloc: Global,
    desk: &mut Desk<V>,
    spoken: &mut Spoken,
    job: &Job,
    opened: &RecipeStart,
    env: Option<Vars>,
    ready: &ParsedLine,
) -> Result<LineEnd, JobStop>
    ensures { Does is_free V.tells desk.old desk.new spoken.old spoken.new result
        (carrying.turn_of job.now opened.now env ready.now) }
{
    let ParsedLine { placed, line } = ready;
    let autos = opened.autos.items();
    let (next, status) = run_line(alloc, desk, spoken, job, autos, env, placed, line)?;
    let stamps = opened.stamps.items();
    after_line(alloc, desk, spoken, job, stamps, placed, next, status)
}

/// Runs the lines in order.
fn run_lines<V: View>(
    alloc: Global,
    desk: &mut Desk<V>,
    spoken: &mut Spoken,
    job: &Job,
    opened: &RecipeStart,
    lines: &[ParsedLine],
) -> Result<Outcome, JobStop>
    ensures { Does is_free V.tells desk.old desk.new spoken.old spoken.new result
        (carrying.lines_from job.now opened.now None lines.now) }
{
    let mut env = None;
    for ready in lines {
        let turned = run_turn(alloc, desk, spoken, job, opened, env, ready)?;
        match turned {
            LineEnd::Next(next) => env = next,
            LineEnd::Ended(outcome) => return Ok(outcome),
        }
    }
    Ok(Outcome::Made)
}

/// Does what is left of a job that goes on.
fn carry_course<V: View>(
    alloc: Global,
    desk: &mut Desk<V>,
    spoken: &mut Spoken,
    job: &Job,
    course: Course,
) -> Result<Outcome, JobStop>
    ensures { Does is_free V.tells desk.old desk.new spoken.old spoken.new result
        (carrying.carry_out job.now course) }
{
    match course {
        Course::Ended(outcome) => Ok(outcome),
        Course::Run(opened, lines) => {
            run_lines(alloc, desk, spoken, job, &opened, lines.items())
        }
    }
}

/// Does what is left of a job.
pub(crate) fn carry_out<V: View>(
    alloc: Global,
    desk: &mut Desk<V>,
    spoken: &mut Spoken,
    job: &Job,
    course: Result<Course, JobStop>,
) -> Result<Outcome, JobStop>
    ensures ok { IfOk course
        (λ c. Does is_free V.tells desk.old desk.new spoken.old spoken.new result
        (carrying.carry_out job.now c)) }
    ensures err { IfErr course (λ e. (result ≡ Err e)
        × ((desk.new ≡ desk.old) × (spoken.new ≡ spoken.old))) }
{
    match course {
        Ok(course) => carry_course(alloc, desk, spoken, job, course),
        Err(stop) => Err(stop),
    }
}
