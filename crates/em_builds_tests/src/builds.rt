//! Builds with one worker and with more.
use super::gates::{LateAsk, Meeting, Roll};
use super::hosts::Bell;
use super::shows::show_built;
use em_base::Seq;
use em_engine::{Cause, Note};
use em_host::{Host, MemHost};
use em_run::Work;
use em_testing::{
    Counter, Link, LinkPlan, Linker, THREE, are_lower, are_numbered, links_of, root, show_bytes,
    show_notes, waits_of,
};
use em_workers::{BuildNo, Built, Gate, OpenGate, build};
use std::alloc::{AllocError, Global};
use std::sync::Wait;
use std::sync::atomic::AtomicBool;
use std::test::Fail;
use std::thread::Threads;

/// With how many workers a build is made, and whether it is declared what each job waits for.
type WorkersRow = (u32, bool);

static WAYS: [WorkersRow; 14] = [
    (1, true),
    (2, true),
    (3, true),
    (4, true),
    (8, true),
    (16, true),
    (64, true),
    (1, false),
    (2, false),
    (3, false),
    (4, false),
    (8, false),
    (16, false),
    (64, false),
];

/// Ten jobs, each of which reads the file of the one before. The first reads a file that isn't
/// there.
static TEN: [(&str, &str); 10] = [
    ("/z", "/a"),
    ("/a", "/b"),
    ("/b", "/c"),
    ("/c", "/d"),
    ("/d", "/e"),
    ("/e", "/f"),
    ("/f", "/g"),
    ("/g", "/h"),
    ("/h", "/i"),
    ("/i", "/j"),
];

/// What the ten jobs come to. The change of job j has the number 100 + j * 2^20 + 1, and the root
/// that of the last one.
static TEN_BUILT: &str = "/a/a/b/a/b/c/a/b/c/d/a/b/c/d/e/a/b/c/d/e/f/a/b/c/d/e/f/g\
    /a/b/c/d/e/f/g/h/a/b/c/d/e/f/g/h/i/a/b/c/d/e/f/g/h/i/j \
    /@9437285 /a=/a@101 /b=/a/b@1048677 /c=/a/b/c@2097253 /d=/a/b/c/d@3145829 \
    /e=/a/b/c/d/e@4194405 /f=/a/b/c/d/e/f@5242981 /g=/a/b/c/d/e/f/g@6291557 \
    /h=/a/b/c/d/e/f/g/h@7340133 /i=/a/b/c/d/e/f/g/h/i@8388709 /j=/a/b/c/d/e/f/g/h/i/j@9437285 \
    made made made made made made made made made made \
    3 4 4 4 4 4 4 4 4 4 ";

/// Two jobs, neither of which reads the file of the other.
static TWO: [(&str, &str); 2] = [("/y", "/a"), ("/z", "/b")];

/// Five jobs, none of which reads the file of another.
static APART: [(&str, &str); 5] = [
    ("/y", "/a"),
    ("/z", "/b"),
    ("/z", "/c"),
    ("/z", "/d"),
    ("/z", "/e"),
];

/// Three jobs, the second of which can't make its file and so ends the run.
static ENDING: [(&str, &str); 3] = [("/z", "/a"), ("/a", "/q/b"), ("/b", "/c")];

/// The jobs of a plan, and for each those that it waits for.
#[derive(Drop)]
struct Jobs {
    links: Seq<Link>,
    waits: Seq<Seq<u32>>,
}

fn jobs_of(alloc: Global, plan: LinkPlan<'_>, is_declared: bool) -> Result<Jobs, Fail> {
    let links = links_of(alloc, plan)?;
    let waits = waits_of(alloc, plan, is_declared)?;
    Ok(Jobs { links, waits })
}

/// Builds the jobs over a root alone. What can't be built, as no plan here, is told as want of
/// memory.
fn build_jobs<R: Threads + Wait + Sync, W: Work<Link> + Sync, G: Gate + Sync, H: Host>(
    rt: &R,
    alloc: Global,
    jobs: Jobs,
    workers: u32,
    w: &W,
    gate: &G,
    host: &mut H,
) -> Result<Built, BuildNo> {
    let Jobs { links, waits } = jobs;
    let count = links.len();
    if count > 100
        || waits.len() != count
        || workers == 0
        || workers > 64
        || !are_numbered(links.items())
        || !are_lower(waits.items())
    {
        return Err(BuildNo::NoMemory);
    }
    let start = root(alloc)?;
    build(rt, alloc, start, links, waits, workers, w, gate, host)
}

/// Builds the plan over a root alone, shows what it comes to, and gives the notes.
fn show_plan<R: Threads + Wait + Sync, W: Work<Link> + Sync, G: Gate + Sync>(
    rt: &R,
    alloc: Global,
    plan: LinkPlan<'_>,
    way: WorkersRow,
    w: &W,
    gate: &G,
    log: &mut String,
) -> Result<Seq<Note>, Fail> {
    let jobs = jobs_of(alloc, plan, way.1)?;
    let mut host = MemHost::new(alloc);
    let built = build_jobs(rt, alloc, jobs, way.0, w, gate, &mut host)?;
    show_built(log, host.printed(), &built)?;
    Ok(built.notes)
}

/// What the plan's build comes to, and the notes.
fn show_noted<R: Threads + Wait + Sync, G: Gate + Sync>(
    rt: &R,
    alloc: Global,
    plan: LinkPlan<'_>,
    way: WorkersRow,
    gate: &G,
    log: &mut String,
) -> Result<(), Fail> {
    let notes = show_plan(rt, alloc, plan, way, &Linker, gate, log)?;
    Ok(show_notes(log, notes.items())?)
}

/// Whether the job was run once, or twice since its first run was answered otherwise.
fn is_due(note: &Note) -> bool {
    match note.cause {
        None => note.runs == 1,
        Some(Cause::Differ { .. }) => note.runs == 2,
        Some(_) => false,
    }
}

/// Whether these are the notes of the jobs from 0 on, each with as many runs as were counted.
fn are_counted(notes: &[Note], counter: &Counter<Linker>) -> bool {
    for (job, note) in (0..=u32::MAX).zip(notes) {
        if note.job != job || u32::from(note.runs) != counter.runs(job) || !is_due(note) {
            return false;
        }
    }
    true
}

fn are_single(notes: &[Note]) -> bool {
    for note in notes {
        if note.runs != 1 {
            return false;
        }
    }
    true
}

/// What is wrong with a build of the ten jobs, if anything is.
fn fault_in(workers: u32, notes: &[Note], text: &str, counter: &Counter<Linker>) -> &'static str {
    if text != TEN_BUILT {
        return "built";
    }
    if notes.len() != 10 || !are_counted(notes, counter) {
        return "notes";
    }
    if workers == 1 && !are_single(notes) {
        return "runs";
    }
    "none"
}

fn fault_of<R: Threads + Wait + Sync>(
    rt: &R,
    alloc: Global,
    way: WorkersRow,
) -> Result<&'static str, Fail> {
    let counter = Counter::new(alloc, Linker, 10)?;
    let mut text = String::new(alloc);
    let notes = show_plan(rt, alloc, &TEN, way, &counter, &OpenGate, &mut text)?;
    Ok(fault_in(way.0, notes.items(), text.as_str(), &counter))
}

#[test]
fn a_build_comes_to_the_same_with_more_workers(rt: HostRuntime) -> Result<(), Fail> {
    for way in &WAYS {
        let workers = way.0;
        let fault = fault_of(&rt, rt.alloc(), *way)?;
        assert!(rt; fault == "none", "{fault} with {workers} workers");
    }
    Ok(())
}

/// What a gate says: whether all came that it holds threads for.
fn show_met(log: &mut String, is_met: bool) -> Result<(), AllocError> {
    log.push_str(if is_met { "met" } else { "missed" })
}

fn meet<R: Threads + Wait + Sync>(rt: &R, alloc: Global, log: &mut String) -> Result<(), Fail> {
    let gate = Meeting::new();
    show_noted(rt, alloc, &TWO, (3, false), &gate, log)?;
    Ok(show_met(log, gate.is_met())?)
}

#[test]
fn workers_run_two_jobs_at_a_time(rt: HostRuntime) -> Result<(), Fail> {
    let mut log = String::new(rt.alloc());
    meet(&rt, rt.alloc(), &mut log)?;
    assert_eq!(rt;
        log.as_str(),
        "/a/b /@1048677 /a=/a@101 /b=/b@1048677 made made 3 3 0 in 1; 1 in 1; met"
    );
    Ok(())
}

#[test]
fn one_worker_runs_two_jobs(rt: HostRuntime) -> Result<(), Fail> {
    let mut log = String::new(rt.alloc());
    show_noted(&rt, rt.alloc(), &TWO, (1, false), &OpenGate, &mut log)?;
    assert_eq!(rt;
        log.as_str(),
        "/a/b /@1048677 /a=/a@101 /b=/b@1048677 made made 3 3 0 in 1; 1 in 1; "
    );
    Ok(())
}

fn call_roll<R: Threads + Wait + Sync>(
    rt: &R,
    alloc: Global,
    log: &mut String,
) -> Result<(), Fail> {
    let gate = Roll::new(alloc, 4)?;
    show_noted(rt, alloc, &APART, (5, false), &gate, log)?;
    Ok(show_met(log, gate.is_whole())?)
}

#[test]
fn each_worker_is_a_thread(rt: HostRuntime) -> Result<(), Fail> {
    let mut log = String::new(rt.alloc());
    call_roll(&rt, rt.alloc(), &mut log)?;
    assert_eq!(rt;
        log.as_str(),
        "/a/b/c/d/e /@4194405 /a=/a@101 /b=/b@1048677 /c=/c@2097253 /d=/d@3145829 /e=/e@4194405 \
         made made made made made 3 3 3 3 3 0 in 1; 1 in 1; 2 in 1; 3 in 1; 4 in 1; met"
    );
    Ok(())
}

/// Whether a build ended well where the first print and the first ask of job 1 wait for one
/// another.
fn is_printed<R: Threads + Wait + Sync>(rt: &R, alloc: Global, jobs: Jobs) -> bool {
    let rung = AtomicBool::new(false);
    let came = AtomicBool::new(false);
    let gate = LateAsk::new(&rung, &came);
    let mut host = Bell::new(&rung, &came);
    let end = build_jobs(rt, alloc, jobs, 3, &Linker, &gate, &mut host);
    end.is_ok() && gate.is_met() && host.is_met()
}

#[test]
fn the_committer_prints_while_workers_run(rt: HostRuntime) -> Result<(), Fail> {
    let jobs = jobs_of(rt.alloc(), &TWO, false)?;
    assert!(rt; is_printed(&rt, rt.alloc(), jobs));
    Ok(())
}

/// Whether a build with one worker ended well, and something was printed before the first ask of
/// job 1.
fn is_printed_before<R: Threads + Wait + Sync>(rt: &R, alloc: Global, jobs: Jobs) -> bool {
    let rung = AtomicBool::new(false);
    let came = AtomicBool::new(false);
    let open = AtomicBool::new(true);
    let gate = LateAsk::at_once(&rung, &came);
    let mut host = Bell::new(&rung, &open);
    let end = build_jobs(rt, alloc, jobs, 1, &Linker, &gate, &mut host);
    end.is_ok() && gate.is_met() && host.is_met()
}

#[test]
fn one_worker_prints_before_the_next_job(rt: HostRuntime) -> Result<(), Fail> {
    let jobs = jobs_of(rt.alloc(), &TWO, false)?;
    assert!(rt; is_printed_before(&rt, rt.alloc(), jobs));
    Ok(())
}

/// With how many workers the builds are made that end early.
static FEW: [u32; 3] = [1, 2, 5];

/// What the plan comes to whose second job ends the run, and how many notes there are.
fn show_ending<R: Threads + Wait + Sync>(
    rt: &R,
    alloc: Global,
    workers: u32,
    log: &mut String,
) -> Result<(), Fail> {
    let way = (workers, false);
    let notes = show_plan(rt, alloc, &ENDING, way, &Linker, &OpenGate, log)?;
    let count = notes.len();
    Ok(write!(log, "{count} notes; ")?)
}

fn show_endings<R: Threads + Wait + Sync>(
    rt: &R,
    alloc: Global,
    log: &mut String,
) -> Result<(), Fail> {
    for workers in &FEW {
        show_ending(rt, alloc, *workers, log)?;
    }
    Ok(())
}

#[test]
fn a_build_ends_behind_the_job_that_ends_the_run(rt: HostRuntime) -> Result<(), Fail> {
    let mut log = String::new(rt.alloc());
    show_endings(&rt, rt.alloc(), &mut log)?;
    assert_eq!(rt;
        log.as_str(),
        "/a/a/q/b /@101 /a=/a@101 made failed 1 3 2 2 notes; \
         /a/a/q/b /@101 /a=/a@101 made failed 1 3 2 2 notes; \
         /a/a/q/b /@101 /a=/a@101 made failed 1 3 2 2 notes; "
    );
    Ok(())
}

fn show_end(log: &mut String, end: Result<Built, BuildNo>) -> Result<(), AllocError> {
    log.push_str(match end {
        Ok(_) => "built ",
        Err(BuildNo::Host) => "host ",
        Err(BuildNo::NoMemory) => "memory ",
    })
}

/// How a build ends whose host fails at the second print, and what was printed.
fn show_failing<R: Threads + Wait + Sync>(
    rt: &R,
    alloc: Global,
    workers: u32,
    log: &mut String,
) -> Result<(), Fail> {
    let jobs = jobs_of(alloc, &THREE, true)?;
    let mut host = MemHost::new(alloc);
    host.fail_at(1)?;
    let end = build_jobs(rt, alloc, jobs, workers, &Linker, &OpenGate, &mut host);
    show_end(log, end)?;
    Ok(show_bytes(log, host.printed())?)
}

fn show_all_failing<R: Threads + Wait + Sync>(
    rt: &R,
    alloc: Global,
    log: &mut String,
) -> Result<(), Fail> {
    for workers in &FEW {
        show_failing(rt, alloc, *workers, log)?;
        log.push_str("; ")?;
    }
    Ok(())
}

#[test]
fn a_build_ends_where_the_host_fails(rt: HostRuntime) -> Result<(), Fail> {
    let mut log = String::new(rt.alloc());
    show_all_failing(&rt, rt.alloc(), &mut log)?;
    assert_eq!(rt; log.as_str(), "host /a; host /a; host /a; ");
    Ok(())
}
