//! A front of two jobs, both of which make `/x`.
ghost use Rattle.std.specs.Prelude.{◌≡◌, ◌≤◌, ◌++◌, ◌∷◌, IsTrue, IfOk, IfErr, IsSomeAnd, OnErr, true};
ghost use Rattle.em_tree.specs.Answers.{Agrees};
ghost use Rattle.em_engine.specs.Fronts.{AreNumbered, next_of};

use super::marks::{Mark, mark_of, run_on};
use crate::common::{path, root, show_bytes};
use em_base::{NoMemory, Seq, Text};
use em_engine::{Front, Verdict};
use em_run::Run;
use em_tree::{Entry, Question, Usage};
use std::alloc::{AllocError, Global};
use std::test::Fail;

/// Whether job i has the number i.
fn are_numbered(specs: &[Mark]) -> bool
    ensures { IsTrue result → AreNumbered (λ m. m.job) specs.now }
{
    for i in 0..specs.len() {
        if specs[i].job as usize != i {
            return false;
        }
    }
    true
}

fn specs(alloc: Global) -> Result<Seq<Mark>, NoMemory> {
    let mut specs = Seq::new(alloc);
    for job in 0..2 {
        specs.push(mark_of(alloc, job, 20)?)?;
    }
    Ok(specs)
}

fn front(alloc: Global) -> Result<Front<Mark>, Fail> {
    let root = root(alloc)?;
    let specs = specs(alloc)?;
    if specs.len() > 2 || !are_numbered(specs.items()) {
        return Err("numbers".into());
    }
    Ok(Front::new(alloc, root, specs)?)
}

/// What the front finds of a run, where there is a next job.
fn verdict(
    front: &Front<Mark>,
    run: &Run<Mark>,
    asked: &Usage,
) -> Result<Option<Verdict>, NoMemory> {
    if front.next().is_none() {
        return Ok(None);
    }
    Ok(Some(front.check(run, asked)?))
}

fn usage_of(alloc: Global, entries: &[Entry]) -> Result<Usage, NoMemory> {
    let mut usage = Usage::new(alloc);
    for entry in entries {
        usage.push(entry.copy(alloc)?)?;
    }
    Ok(usage)
}

fn show_verdict(verdict: Option<Verdict>, log: &mut String) -> Result<(), AllocError> {
    match verdict {
        None => log.push_str("no job "),
        Some(Verdict::Same) => log.push_str("same "),
        Some(Verdict::Foreign) => log.push_str("foreign "),
        Some(Verdict::Differ { place }) => write!(log, "differ {place} "),
        Some(Verdict::Strange { place }) => write!(log, "strange {place} "),
    }
}

/// A run that agrees, with what it asked, with less of it, and one of another spec.
fn show_found(
    alloc: Global,
    front: &Front<Mark>,
    run: &Run<Mark>,
    other: &Run<Mark>,
    log: &mut String,
) -> Result<(), NoMemory> {
    let entries = run.usage().entries(alloc)?;
    if entries.len() != 5 {
        return Ok(log.push_str("not five ")?);
    }
    let less = usage_of(alloc, &entries[..2])?;
    let later = usage_of(alloc, &entries[1..])?;
    show_verdict(verdict(front, run, run.usage())?, log)?;
    show_verdict(verdict(front, run, &less)?, log)?;
    show_verdict(verdict(front, run, &later)?, log)?;
    Ok(show_verdict(verdict(front, other, run.usage())?, log)?)
}

fn find(alloc: Global, front: &Front<Mark>, log: &mut String) -> Result<(), NoMemory> {
    let run = run_on(alloc, 0, 20, front.state())?;
    let other = run_on(alloc, 0, 19, front.state())?;
    show_found(alloc, front, &run, &other, log)
}

fn find_all(alloc: Global, log: &mut String) -> Result<(), Fail> {
    let front = front(alloc)?;
    Ok(find(alloc, &front, log)?)
}

#[test]
fn a_run_is_checked_against_the_front_and_what_it_asked(rt: HostRuntime) -> Result<(), Fail> {
    let mut log = String::new(rt.alloc());
    find_all(rt.alloc(), &mut log)?;
    assert_eq!(rt; log.as_str(), "same strange 2 strange 0 foreign ");
    Ok(())
}

/// Commits a run with whose usage the front agrees, and gives its output.
fn commit(front: &mut Front<Mark>, run: Run<Mark>) -> Option<Text> {
    if front.next().is_none() {
        return None;
    }
    match front.check(&run, run.usage()) {
        Ok(Verdict::Same) => {}
        _ => return None,
    }
    match front.commit(run) {
        Ok(text) => Some(text),
        Err(_) => None,
    }
}

fn show_output(output: Option<Text>, log: &mut String) -> Result<(), AllocError> {
    match output {
        Some(text) => show_bytes(log, text.bytes()),
        None => log.push_str("not committed"),
    }
}

/// Runs a job on the front's state and commits it.
fn commit_job(
    alloc: Global,
    front: &mut Front<Mark>,
    job: u32,
    log: &mut String,
) -> Result<(), NoMemory> {
    let run = run_on(alloc, job, 20, front.state())?;
    show_output(commit(front, run), log)?;
    Ok(log.push_str(" ")?)
}

/// Commits the first job, and tries a run of the second that was begun before.
fn commit_first(alloc: Global, front: &mut Front<Mark>, log: &mut String) -> Result<(), NoMemory> {
    let stale = run_on(alloc, 1, 20, front.state())?;
    commit_job(alloc, front, 0, log)?;
    Ok(show_verdict(verdict(front, &stale, stale.usage())?, log)?)
}

fn show_maker(
    front: &Front<Mark>,
    question: &Question,
    log: &mut String,
) -> Result<(), AllocError> {
    match front.last_change(question) {
        Some(job) => write!(log, "{job} "),
        None => log.push_str("none "),
    }
}

/// Who made `/x` and the outcomes of both jobs.
fn show_makers(alloc: Global, front: &Front<Mark>, log: &mut String) -> Result<(), NoMemory> {
    let made = Question::Kind(path(alloc, b"/x")?);
    show_maker(front, &made, log)?;
    show_maker(front, &Question::Outcome(0), log)?;
    Ok(show_maker(front, &Question::Outcome(1), log)?)
}

fn commit_both(alloc: Global, front: &mut Front<Mark>, log: &mut String) -> Result<(), NoMemory> {
    show_makers(alloc, front, log)?;
    commit_first(alloc, front, log)?;
    show_makers(alloc, front, log)?;
    commit_job(alloc, front, 1, log)
}

fn show_fuel(fuel: &[u64], log: &mut String) -> Result<(), AllocError> {
    for units in fuel {
        write!(log, " {units}")?;
    }
    Ok(())
}

/// Whether there is no next job, how many outcomes there are, and the fuel of each job.
fn show_end(front: Front<Mark>, log: &mut String) -> Result<(), AllocError> {
    let is_done = front.next().is_none();
    let (state, fuel) = front.close();
    let outcomes = state.outcomes.len();
    write!(log, "{is_done} {outcomes}")?;
    show_fuel(fuel.as_slice(), log)
}

fn commit_all(alloc: Global, log: &mut String) -> Result<(), Fail> {
    let mut front = front(alloc)?;
    commit_both(alloc, &mut front, log)?;
    Ok(show_end(front, log)?)
}

#[test]
fn a_commit_is_seen_by_the_next_job(rt: HostRuntime) -> Result<(), Fail> {
    let mut log = String::new(rt.alloc());
    commit_all(rt.alloc(), &mut log)?;
    assert_eq!(rt;
        log.as_str(),
        "none none none made differ 1 0 0 none there true 2 3 1"
    );
    Ok(())
}
