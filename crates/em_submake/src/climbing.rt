//! A job with the makes that its lines begin, each a level of a stack.
ghost use Rattle.std.specs.Prelude.{◌≡◌, ◌+◌, ◌-◌, ◌<◌, ◌≤◌, ◌++◌, ◌∷◌, []};
ghost use Rattle.std.specs.Prelude.{length, suc, IfOk, OnOk};
ghost use Rattle.em_closing.specs.Closing.{closing, goals_of as goals_in};
ghost use Rattle.em_script.specs.Strands.{Status, IsSent};
ghost use Rattle.em_submake.specs.Climbing as climbing;
ghost use Rattle.em_submake.specs.Climbing.{AreSound, IsSound, Went, room, weight};
ghost use Rattle.em_submake.specs.Submakes as submakes;

use crate::ground::{Ground, ground_of};
use crate::known::known_of;
use crate::levels::{Level, Next};
use crate::steps::{Maker, Steps};
use em_base::{NoMemory, Seq, Stack, Text};
use em_closing::{closing_text, goals_of, has_faulty};
use em_exec::{SubLine, Turn};
use em_plan::{Plan, SharedJob};
use em_rules::Book;
use em_task::{Flags, SharedVars};
use em_tree::Outcome;
use em_view::{Desk, View};
use std::alloc::Global;

/// The most makes within makes.
const DEEPEST: usize = 8;

/// Whether a job that ends so ends all makes.
fn ends_all(outcome: &Outcome) -> bool
    ensures { result ≡ submakes.ends_all outcome.now }
{
    matches!(outcome, Outcome::Refused { .. } | Outcome::Spent)
}

/// The status of a make whose jobs have ended so.
fn status_of(outcomes: &[Outcome]) -> u8
    ensures { result ≡ submakes.status_of outcomes.now }
{
    if has_faulty(outcomes) { 2 } else { 0 }
}

/// Says what is to be said of a make's goals at its end.
fn put_closing(
    alloc: Global,
    out: &mut Text,
    line: &SubLine,
    book: &Book,
    plan: &Plan,
    ended: &[Outcome],
    early: bool,
) -> Result<(), NoMemory>
    ensures { OnOk result (out.new ≡ out.old ++ closing line.now.order.silent plan.now ended.now
        (goals_in book.now line.now.order.goals) early) }
{
    let goals = goals_of(alloc, book, line.order.goals.items())?;
    let text = closing_text(alloc, line.order.silent, goals.items(), plan, ended, early)?;
    out.add(text.bytes())
}

/// A make has ended, and the job of its line goes on.
fn close<J: Steps>(
    alloc: Global,
    out: &mut Text,
    level: Level<J>,
    early: bool,
) -> Result<J, NoMemory>
    ensures said { OnOk result (out.new ≡ out.old ++ closing level.line.order.silent level.plan
        level.ended (goals_in level.book level.line.order.goals) early) }
    ensures goes { IfOk result
        (λ j. J.plot j ≡ J.back level.job (Status (submakes.status_of level.ended))) }
{
    let Level {
        mut job,
        line,
        book,
        plan,
        ended,
        ..
    } = level;
    put_closing(alloc, out, &line, &book, &plan, ended.items(), early)?;
    job.resume(status_of(ended.items()));
    Ok(job)
}

/// The make with one outcome more.
fn with_outcome<J: Drop>(level: Level<J>, outcome: Outcome) -> Result<Level<J>, NoMemory>
    ensures { IfOk result (λ v. v ≡ record level { ended = level.ended ++ outcome ∷ [] }) }
{
    let Level {
        job,
        line,
        book,
        plan,
        vars,
        mut ended,
    } = level;
    ended.push(outcome)?;
    Ok(Level {
        job,
        line,
        book,
        plan,
        vars,
        ended,
    })
}

/// The next job of a make.
fn begin_job<J: Steps, M: Maker<J>>(
    alloc: Global,
    maker: &M,
    level: &Level<J>,
    planned: &SharedJob,
) -> Result<J, NoMemory>
    requires { IsSound level.now }
    ensures { IfOk result (λ j. J.plot j ≡ M.job_of maker.now level.now.line level.now.plan
        (length level.now.ended) level.now.book (submakes.known_of level.now.ended planned.now)) }
{
    let known = known_of(alloc, level.ended.items(), planned.get())?;
    let number = level.ended.len() as u32;
    let Level {
        line,
        book,
        plan,
        vars,
        ..
    } = level;
    maker.job(alloc, line, plan, number, book, vars, known)
}

/// Goes on with a make: with its next job, or with the job of its line where none is left.
fn go_on<J: Steps, M: Maker<J>>(
    alloc: Global,
    maker: &M,
    out: &mut Text,
    level: Level<J>,
    levels: &mut Stack<Level<J>>,
) -> Result<Next<J>, NoMemory>
    requires some { AreSound levels.old }
    requires free { length levels.old < 8 }
    requires few { length level.plan.jobs ≤ 65536 }
    requires vars { level.vars ≡ level.book.vars }
    requires sent { IsSent level.line }
    ensures goes { climbing.Goes_by (M.job_of maker.now) J.plot J.back out.old out.new
        (climbing.waits (M.job_of maker.now) J.plot J.back level.job levels.old
        (climbing.others (M.job_of maker.now) J.plot J.back (7 - length levels.old) level
        level.ended)) levels.new result }
    ensures less { climbing.Smaller
        (room levels.old + suc (suc (length level.plan.jobs - length level.ended)))
        (room levels.new) result }
{
    if let Some(planned) = level.plan.jobs.get(level.ended.len()) {
        let job = begin_job(alloc, maker, &level, planned)?;
        levels.push(level)?;
        return Ok(Next::Job(job));
    }
    let job = close(alloc, out, level, false)?;
    Ok(Next::Job(job))
}

/// The innermost job has ended, and a level waits for it.
fn up_within<J: Steps, M: Maker<J>>(
    alloc: Global,
    maker: &M,
    out: &mut Text,
    levels: &mut Stack<Level<J>>,
    outcome: Outcome,
) -> Result<Next<J>, NoMemory>
    requires { AreSound levels.old }
    ensures goes { climbing.Goes_by (M.job_of maker.now) J.plot J.back out.old out.new
        (climbing.climb (M.job_of maker.now) J.plot J.back levels.old outcome)
        levels.new result }
    ensures less { climbing.Smaller (room levels.old) (room levels.new) result }
{
    let Some(level) = levels.pop() else {
        return Ok(Next::Done(outcome));
    };
    if ends_all(&outcome) {
        return Ok(Next::Done(outcome));
    }
    let early = Flags::of_order(&level.line.order).ends_after(&outcome);
    let level = with_outcome(level, outcome)?;
    if early {
        let job = close(alloc, out, level, true)?;
        return Ok(Next::Job(job));
    }
    go_on(alloc, maker, out, level, levels)
}

/// The innermost job has ended. Where no level waits for it, no room is made for one.
fn up<J: Steps, M: Maker<J>>(
    alloc: Global,
    maker: &M,
    out: &mut Text,
    levels: &mut Stack<Level<J>>,
    outcome: Outcome,
) -> Result<Next<J>, NoMemory>
    requires { AreSound levels.old }
    ensures goes { climbing.Goes_by (M.job_of maker.now) J.plot J.back out.old out.new
        (climbing.climb (M.job_of maker.now) J.plot J.back levels.old outcome)
        levels.new result }
    ensures less { climbing.Smaller (room levels.old) (room levels.new) result }
{
    if levels.is_empty() {
        return Ok(Next::Done(outcome));
    }
    up_within(alloc, maker, out, levels, outcome)
}

/// The variables of a book, to be shared by its jobs.
fn shared_vars(alloc: Global, book: &Book) -> Result<SharedVars, NoMemory>
    ensures { IfOk result (λ v. v ≡ book.now.vars) }
{
    SharedVars::new(alloc, book.vars.copy(alloc)?)
}

/// A line begins a make.
fn down<V: View, J: Steps, M: Maker<J>>(
    alloc: Global,
    maker: &M,
    desk: &mut Desk<V>,
    out: &mut Text,
    job: J,
    levels: &mut Stack<Level<J>>,
    line: SubLine,
) -> Result<Next<J>, NoMemory>
    requires some { AreSound levels.old }
    requires sent { IsSent line }
    ensures goes { climbing.IsTurned (M.job_of maker.now) J.plot J.back V.tells desk.old desk.new
        out.old out.new (climbing.waits (M.job_of maker.now) J.plot J.back job levels.old
        (submakes.deeper_at (M.job_of maker.now) (8 - length levels.old) line))
        levels.new result }
    ensures less { climbing.Smaller (room levels.old + 65538) (room levels.new) result }
    ensures burns { desk.new.work.fuel ≤ desk.old.work.fuel }
{
    let mut job = job;
    if levels.len() >= DEEPEST {
        job.resume(2);
        return Ok(Next::Job(job));
    }
    match ground_of(alloc, desk, out, &line)? {
        Ground::Planned(book, plan) => {
            let vars = shared_vars(alloc, &book)?;
            let ended = Seq::new(alloc);
            let level = Level {
                job,
                line,
                book,
                plan,
                vars,
                ended,
            };
            go_on(alloc, maker, out, level, levels)
        }
        Ground::Ended(status) => {
            job.resume(status);
            Ok(Next::Job(job))
        }
        Ground::Spent => {
            job.spent();
            Ok(Next::Job(job))
        }
    }
}

/// One turn: the innermost job runs to its end, or to a line that begins a make.
fn turn<V: View, J: Steps, M: Maker<J>>(
    alloc: Global,
    maker: &M,
    desk: &mut Desk<V>,
    out: &mut Text,
    current: J,
    levels: &mut Stack<Level<J>>,
) -> Result<Next<J>, NoMemory>
    requires { AreSound levels.old }
    ensures goes { climbing.IsTurned (M.job_of maker.now) J.plot J.back V.tells desk.old desk.new
        out.old out.new (climbing.rest_of (M.job_of maker.now) J.plot J.back current levels.old)
        levels.new result }
    ensures less { climbing.Smaller (weight desk.old.work.fuel levels.old)
        (weight desk.new.work.fuel levels.new) result }
{
    let mut current = current;
    match current.step(alloc, desk, out)? {
        Turn::Ended(outcome) => up(alloc, maker, out, levels, outcome),
        Turn::Sub(line) => down(alloc, maker, desk, out, current, levels, line),
    }
}

/// Runs a job with all makes that its lines begin, and theirs, up to 8 levels deep, by a stack of
/// its own. Appends to `out` what they say, in order.
///
/// A make reads its makefiles and plans on what the desk sees at its line, with the settings of the
/// line; its jobs run one after another, and what they change and use is changed and used over the
/// desk. Where its makefiles can't be read, or there is no plan, that is said, and the line has
/// status 2; where reading or planning spends the fuel, the line's job is told so. Else the line's
/// status is 2 where a job failed, has no rule or was halted, and 0 where none did. A job that is
/// refused or spends its fuel ends all makes with its outcome, and the jobs around it say nothing.
///
/// `NoMemory` alone is an error, and may come freely; what was done till then stands, and what
/// `out` holds then no clause tells.
///
/// The cost is that of the jobs' steps; of `read_through` and `plan_through` for each make, and a
/// copy of the variables that it has read; and for each of its jobs that of `Maker::job`, and a
/// copy of each outcome for which it asks. A make's book, plan and outcomes are there until it has
/// ended, those of at most 8 makes at a time.
pub fn make<V: View, J: Steps, M: Maker<J>>(
    alloc: Global,
    first: J,
    maker: &M,
    desk: &mut Desk<V>,
    out: &mut Text,
) -> Result<Outcome, NoMemory>
    ensures { Went V.tells desk.old desk.new out.old out.new result
        (submakes.made (M.job_of maker.now) (J.plot first)) }
{
    let mut levels = Stack::new(alloc);
    let mut current = first;
    'turns: loop {
        match turn(alloc, maker, desk, out, current, &mut levels)? {
            Next::Job(job) => current = job,
            Next::Done(outcome) => return Ok(outcome),
        }
    }
}
