//! What a job asks of a view whose answers change, and what a front finds of its run.
use super::makefiles::{read_jobs, state_of};
use em_base::{NoMemory, Seq, Text};
use em_engine::Verdict;
use em_job::{JobSpec, JobWork};
use em_run::{Run, Work};
use em_testing::front_from;
use em_tree::{Answer, Entry, Kind, Outcome, Question, State, Usage};
use em_view::ScriptView;
use std::alloc::Global;
use std::test::Fail;

const MAKEFILE: &str = "EMTREE 1\nd 5 /\nf 5 27 /Makefile\nall:\n\t@ls d; cat d/x; ls d\n\n.\n";

const LISTED: &str = "EMTREE 1\nd 5 /\nd 5 /d\nf 5 0 /d/x\n\n.\n";

const EMPTY: &str = "EMTREE 1\nd 5 /\nd 5 /d\n.\n";

const FILE: &str = "EMTREE 1\nd 5 /\nf 5 0 /d\n\n.\n";

const BARE: &str = "EMTREE 1\nd 5 /\n.\n";

fn keep(states: &mut Vec<State>, state: State) -> Result<(), Fail> {
    states.push(state)?;
    Ok(())
}

/// `/d` is listed, is then empty, and is a file at last.
fn script(alloc: Global) -> Result<Vec<State>, Fail> {
    let mut states = Vec::new(alloc);
    for (image, count) in [(LISTED, 6), (EMPTY, 7), (FILE, 1)] {
        for _ in 0..count {
            keep(&mut states, state_of(alloc, image)?)?;
        }
    }
    Ok(states)
}

/// The makefile's job.
fn jobs(alloc: Global) -> Result<Seq<JobSpec>, Fail> {
    let (_state, jobs) = read_jobs(alloc, MAKEFILE)?;
    Ok(jobs.specs)
}

/// The run of the job over these states, if there is a job and a state.
fn run_over(
    alloc: Global,
    jobs: &Seq<JobSpec>,
    states: Vec<State>,
) -> Result<Option<Run<JobSpec>>, Fail> {
    if states.is_empty() {
        return Ok(None);
    }
    let view = ScriptView::new(states);
    match jobs.get(0) {
        Some(job) => Ok(Some(JobWork::new().run(alloc, job, view)?)),
        None => Ok(None),
    }
}

/// The run of the job over the changing view.
fn run_of(alloc: Global) -> Result<Run<JobSpec>, Fail> {
    let jobs = jobs(alloc)?;
    let run = run_over(alloc, &jobs, script(alloc)?)?;
    Ok(run.ok_or("a run")?)
}

/// The name of a list of one name that is `x`.
fn listed(names: &[Text]) -> &'static str {
    match names {
        [name] if name.bytes() == b"x".as_slice() => "x",
        _ => "other names",
    }
}

/// The path that is asked for, and what is told of it.
fn told(entry: &Entry) -> (&[u8], &'static str) {
    match (&entry.question, &entry.answer) {
        (Question::Link(p), Answer::Link(None)) => (p.text(), "no link"),
        (Question::Stamp(p), Answer::Stamp(None)) => (p.text(), "no stamp"),
        (Question::Content(p), Answer::Content(None)) => (p.text(), "no bytes"),
        (Question::Names(p), Answer::Names(Some(names))) => (p.text(), listed(names.names())),
        (Question::Kind(p), Answer::Kind(Kind::Dir)) => (p.text(), "a directory"),
        (Question::Kind(p), Answer::Kind(Kind::File)) => (p.text(), "a file"),
        (Question::Kind(p), Answer::Kind(Kind::Absent)) => (p.text(), "nothing"),
        _ => (b"", ""),
    }
}

const TOLD: [(&str, &str); 14] = [
    ("/all", "no link"),
    ("/all", "no stamp"),
    ("/d", "no link"),
    ("/d", "a directory"),
    ("/d", "no link"),
    ("/d", "x"),
    ("/d", "no link"),
    ("/d/x", "no link"),
    ("/d/x", "no bytes"),
    ("/d", "no link"),
    ("/d/x", "no link"),
    ("/d/x", "nothing"),
    ("/d", "no link"),
    ("/d", "a file"),
];

/// Whether the usage is what was told, entry by entry.
fn is_told(usage: &[Entry]) -> bool {
    for (entry, want) in usage.iter().zip(TOLD) {
        let (path, what) = told(entry);
        if path != want.0.as_bytes() || what != want.1 {
            return false;
        }
    }
    usage.len() == TOLD.len()
}

#[test]
fn a_job_tells_what_it_was_told(rt: HostRuntime) -> Result<(), Fail> {
    let run = run_of(rt.alloc())?;
    let is_told = is_told(run.usage().entries(rt.alloc())?.as_slice());
    assert!(rt; is_told);
    let output = run.output().bytes();
    assert_eq!(rt; output, b"x\nemake: cat: d/x: absent\nd\n".as_slice());
    let is_made = matches!(run.outcome(), Outcome::Made);
    assert!(rt; is_made);
    Ok(())
}

/// The first entries.
fn first(alloc: Global, entries: &[Entry], count: usize) -> Result<Usage, NoMemory> {
    let mut usage = Usage::new(alloc);
    for entry in entries.iter().take(count) {
        usage.push(entry.copy(alloc)?)?;
    }
    Ok(usage)
}

/// What a front that stands on this state finds of the run, where the board has answered its first
/// `count` asks.
fn found(
    alloc: Global,
    image: &str,
    run: &Run<JobSpec>,
    count: usize,
) -> Result<Option<Verdict>, Fail> {
    let state = state_of(alloc, image)?;
    let jobs = jobs(alloc)?;
    let front = front_from(alloc, state, jobs)?;
    let asked = first(alloc, run.usage().entries(alloc)?.as_slice(), count)?;
    Ok(match front.next() {
        Some(_) => Some(front.check(run, &asked)?),
        None => None,
    })
}

#[test]
fn a_front_finds_where_a_run_was_told_otherwise(rt: HostRuntime) -> Result<(), Fail> {
    let run = run_of(rt.alloc())?;
    for (image, count, verdict) in [
        (LISTED, 14, Verdict::Differ { place: 8 }),
        (BARE, 14, Verdict::Differ { place: 3 }),
        (LISTED, 2, Verdict::Strange { place: 2 }),
    ] {
        let found = found(rt.alloc(), image, &run, count)?;
        assert_eq!(rt; found, Some(verdict));
    }
    Ok(())
}
