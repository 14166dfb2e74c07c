//! The jobs of recipes over views of fifty states, what fronts find of their runs, and what the
//! jobs come to on each of the states.
ghost use Rattle.std.specs.Prelude.{◌≡◌, [], IfOk};

use super::makefiles::{read_jobs, state_of};
use em_engine::Verdict;
use em_job::{JobSpec, JobWork};
use em_run::{Run, Work};
use em_testing::front_from;
use em_tree::{Entry, State};
use em_view::{PlainView, ScriptView};
use std::alloc::{AllocError, Global};
use std::process::Abort;
use std::test::Fail;

/// How many states a view has.
const STATES: usize = 50;

/// Makefiles of one job.
const MAKEFILES: [&str; 9] = [
    "gen:\n\techo 1 > g\n",
    "use:\n\tcat g\n",
    "use:\n\ttest -f g && echo yes\n",
    "mk:\n\techo x > b.c\n",
    "show:\n\techo $(wildcard *.c)\n",
    "glob:\n\techo *.c\n",
    "b:\n\techo x > t\n\tmv t b\n",
    ".PHONY: c\nc:\n\tcat c > c\n",
    "all:\n\t@ls d; cat d/x; ls d\n",
];

/// What may stand below the root, in the order of an image.
const NAMES: [&str; 8] = ["a.c", "b", "b.c", "c", "d", "d/x", "g", "t"];

/// What stands at the name of this place in the state of this number: 0 nothing, 1 a file that
/// holds the number, 2 a directory.
fn kind_at(number: usize, at: usize) -> usize {
    let turned = number.saturating_mul(at);
    (number / at.saturating_add(1)).saturating_add(turned) % 3
}

/// The same, but that below `d` nothing stands unless that is a directory.
fn kept_at(number: usize, at: usize) -> usize {
    if at == 5 && kind_at(number, 4) != 2 {
        0
    } else {
        kind_at(number, at)
    }
}

/// The image of the state of this number. Its stamps are the number.
fn image_of(alloc: Global, number: usize) -> Result<String, AllocError> {
    let mut text = format!(in alloc; "EMTREE 1\nd {number} /\n")?;
    for (at, name) in NAMES.iter().enumerate() {
        match kept_at(number, at) {
            0 => {}
            1 => write!(text, "f {number} 2 /{name}\n{number:02}\n")?,
            _ => write!(text, "d {number} /{name}\n")?,
        }
    }
    text.push_str(".\n")?;
    Ok(text)
}

/// The state of this number.
fn numbered(alloc: Global, number: usize) -> Result<State, Fail>
    ensures { IfOk result (λ s. s.outcomes ≡ []) }
{
    let image = image_of(alloc, number)?;
    state_of(alloc, image.as_str())
}

/// The states of a view: that of each place has the number of the place, so many times over.
fn script(alloc: Global, pace: usize) -> Result<Vec<State>, Fail> {
    let mut states = Vec::new(alloc);
    for place in 0..STATES {
        let number = pace.saturating_mul(place) % STATES;
        states.push(numbered(alloc, number)?)?;
    }
    Ok(states)
}

/// The run of the job over these states.
fn run_over(alloc: Global, job: &JobSpec, states: Vec<State>) -> Result<Run<JobSpec>, Fail> {
    if states.is_empty() {
        return Err("no state".into());
    }
    Ok(JobWork::new().run(alloc, job, ScriptView::new(states))?)
}

/// Whether the state answers each question as the usage tells.
fn agrees(alloc: Global, state: &State, usage: &[Entry]) -> Result<bool, Fail> {
    for entry in usage {
        if state.answer(alloc, &entry.question)? != entry.answer {
            return Ok(false);
        }
    }
    Ok(true)
}

/// Whether a front of the makefile's job on this state finds that the run is what it would be, and
/// whether the state agrees with all of the run's usage.
fn found(
    alloc: Global,
    makefile: &str,
    state: State,
    run: &Run<JobSpec>,
) -> Result<(bool, bool), Fail>
    requires { state.outcomes ≡ [] }
{
    let usage = run.usage();
    let agrees = agrees(alloc, &state, usage.entries(alloc)?.as_slice())?;
    let (_start, jobs) = read_jobs(alloc, makefile)?;
    let front = front_from(alloc, state, jobs.specs)?;
    match front.next() {
        Some(_) => Ok((front.check(run, usage)? == Verdict::Same, agrees)),
        None => Err("no job".into()),
    }
}

/// Whether the job, run on this state, changes and says the same, ends so and takes as much fuel.
fn comes_again(
    alloc: Global,
    job: &JobSpec,
    state: &State,
    run: &Run<JobSpec>,
) -> Result<bool, Fail> {
    let again = JobWork::new().run(alloc, job, PlainView::new(state))?;
    Ok(
        again.delta() == run.delta()
            && again.output().bytes() == run.output().bytes()
            && again.outcome() == run.outcome()
            && again.fuel() == run.fuel(),
    )
}

/// Whether the run is found right on some of the fifty states: it is on exactly those that agree
/// with its usage, and on these the job comes to the same.
fn same_on<R: Abort>(
    rt: &R,
    alloc: Global,
    makefile: &str,
    job: &JobSpec,
    run: &Run<JobSpec>,
) -> Result<bool, Fail> {
    let mut any = false;
    for number in 0..STATES {
        let state = numbered(alloc, number)?;
        let again = comes_again(alloc, job, &state, run)?;
        let (is_same, agrees) = found(alloc, makefile, state, run)?;
        assert!(rt; is_same == agrees, "state {number} of {makefile}");
        assert!(rt; again || !agrees, "effect on state {number} of {makefile}");
        any = any || is_same;
    }
    Ok(any)
}

/// The image of a makefile alone.
fn project(alloc: Global, makefile: &str) -> Result<String, AllocError> {
    let size = makefile.len();
    format!(in alloc; "EMTREE 1\nd 5 /\nf 5 {size} /Makefile\n{makefile}\n.\n")
}

/// Runs the makefile's job over the view of this pace, and checks the run on each state.
fn try_pace<R: Abort>(rt: &R, alloc: Global, image: &str, pace: usize) -> Result<(), Fail> {
    let (_state, jobs) = read_jobs(alloc, image)?;
    let job = jobs.specs.get(0).ok_or("a job")?;
    let run = run_over(alloc, job, script(alloc, pace)?)?;
    let any = same_on(rt, alloc, image, job, &run)?;
    // a view that doesn't change is one of the states
    assert!(rt; pace != 0 || any, "no state of {image}");
    Ok(())
}

/// Runs the makefile's job over a view that doesn't change, one that goes through the states in
/// order, and one in another order.
fn try_paces<R: Abort>(rt: &R, alloc: Global, makefile: &str) -> Result<(), Fail> {
    let image = project(alloc, makefile)?;
    for pace in [0, 1, 7] {
        try_pace(rt, alloc, image.as_str(), pace)?;
    }
    Ok(())
}

#[test]
fn a_run_is_right_on_the_states_that_agree_with_it(rt: HostRuntime) -> Result<(), Fail> {
    for makefile in MAKEFILES {
        try_paces(&rt, rt.alloc(), makefile)?;
    }
    Ok(())
}
