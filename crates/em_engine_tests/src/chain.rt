//! What jobs have posted, call after call.
use super::common::{file, path, root, show_bytes};
use em_base::NoMemory;
use em_chain::{Steps, Versions};
use em_path::Path;
use em_tree::{Answer, Delta, NameList, Node, Outcome, Question};
use std::alloc::{AllocError, Global};
use std::test::Fail;

mod walk;

/// A path, and the stamp of the file that a job makes there; 0 stands for none.
type StampRow = (&'static str, u64);

/// A call, with the job.
enum PostCall {
    /// Posts the changes of a job that made something.
    Post(u32, &'static [StampRow]),
    /// The same of a job that was up to date.
    Upto(u32, &'static [StampRow]),
    Withdraw(u32),
    Raise(u32),
    /// What the job is answered of the path, of the root's names and of job 2.
    See(u32, &'static str),
    /// The last job below that posted the path.
    Last(u32, &'static str),
    /// The floor, and how many pairs of a path and a job there are.
    Count,
    /// Whether the jobs from the floor on are told what a walk over all posts finds.
    Walk,
}

use PostCall::*;

/// The calls over a root with stamp 1, and what they say.
type Row = (&'static [PostCall], &'static str);

static ROWS: [Row; 6] = [
    // A post is seen above its job until it is withdrawn.
    (
        &[
            Post(2, &[("/x", 7)]),
            See(3, "/x"),
            See(2, "/x"),
            Withdraw(2),
            See(3, "/x"),
        ],
        "File 7 hi x, made Absent - -  - Absent - -  - ",
    ),
    // Posts are laid in order of number.
    (
        &[
            Post(4, &[("/x", 0)]),
            Post(1, &[("/x", 7)]),
            Upto(2, &[("/a/b", 8)]),
            See(4, "/a/b"),
            See(5, "/x"),
        ],
        "File 8 hi x, other Absent - -  other ",
    ),
    // The last job below is found in two steps.
    (
        &[
            Post(3, &[("/x", 5)]),
            Post(7, &[("/x", 5)]),
            Post(1, &[("/x", 5)]),
            Last(4, "/x"),
            Last(1, "/x"),
            Last(8, "/x"),
            Last(8, "/y"),
        ],
        "3 - 7 - ",
    ),
    // Seven jobs, each of which makes a file of its own and changes the root. Below the floor a
    // path keeps its last job.
    (
        &[
            Post(0, &[("/a", 10), ("/", 10)]),
            Post(1, &[("/b", 11), ("/", 11)]),
            Post(2, &[("/c", 12), ("/", 12)]),
            Post(3, &[("/d", 13), ("/", 13)]),
            Post(4, &[("/e", 14), ("/", 14)]),
            Post(5, &[("/f", 15), ("/", 15)]),
            Post(6, &[("/g", 16), ("/", 16)]),
            Count,
            Raise(0),
            Count,
            Raise(1),
            Count,
            Raise(2),
            Count,
            Raise(3),
            Count,
            Raise(4),
            Count,
            Raise(5),
            Count,
            Raise(6),
            Count,
            Raise(7),
            Count,
            Last(7, "/"),
            Last(9, "/c"),
        ],
        "0:14 0:14 1:14 2:13 3:12 4:11 5:10 6:9 7:8 6 2 ",
    ),
    // Looks agree with a walk over all posts.
    (
        &[
            Post(3, &[("/x", 3), ("/d", 4)]),
            Post(7, &[("/x", 0), ("/z", 5)]),
            Post(1, &[("/x", 6), ("/d/y", 7)]),
            Walk,
            Post(3, &[("/z", 8)]),
            Post(8, &[("/d", 9), ("/z", 0)]),
            Walk,
            Withdraw(7),
            Withdraw(2),
            Walk,
            Withdraw(8),
            Withdraw(1),
            Walk,
        ],
        "same same same same ",
    ),
    // They agree above a floor, too.
    (
        &[
            Post(1, &[("/x", 6), ("/d", 7)]),
            Post(3, &[("/x", 0), ("/z", 4)]),
            Post(4, &[("/z", 5)]),
            Post(7, &[("/x", 3), ("/d", 0)]),
            Raise(2),
            Walk,
            Post(3, &[("/z", 8)]),
            Raise(4),
            Walk,
            Withdraw(7),
            Raise(8),
            Walk,
        ],
        "same same same ",
    ),
];

fn start(alloc: Global) -> Result<Versions, NoMemory> {
    let state = root(alloc)?;
    Versions::new(alloc, state)
}

fn node(alloc: Global, stamp: u64) -> Result<Option<Node>, NoMemory> {
    if stamp == 0 {
        return Ok(None);
    }
    Ok(Some(file(alloc, b"hi", stamp)?))
}

fn change(alloc: Global, delta: &mut Delta, text: &str, stamp: u64) -> Result<(), NoMemory> {
    let node = node(alloc, stamp)?;
    let path = path(alloc, text.as_bytes())?;
    delta.set(path, node)
}

fn delta_of(alloc: Global, changes: &[StampRow]) -> Result<Delta, NoMemory> {
    let mut delta = Delta::new(alloc);
    for (text, stamp) in changes {
        change(alloc, &mut delta, text, *stamp)?;
    }
    Ok(delta)
}

/// Posts, where the job isn't below the floor.
fn put(v: &mut Versions, job: u32, delta: Delta, outcome: Outcome) -> Result<(), NoMemory> {
    if job < v.floor() {
        return Ok(());
    }
    v.post(job, delta, outcome)
}

fn made(alloc: Global, v: &mut Versions, job: u32, changes: &[StampRow]) -> Result<(), NoMemory> {
    let delta = delta_of(alloc, changes)?;
    put(v, job, delta, Outcome::Made)
}

fn upto(alloc: Global, v: &mut Versions, job: u32, changes: &[StampRow]) -> Result<(), NoMemory> {
    let delta = delta_of(alloc, changes)?;
    put(v, job, delta, Outcome::Upto)
}

fn withdraw(v: &mut Versions, job: u32) {
    if v.floor() <= job {
        v.withdraw(job);
    }
}

fn raise(v: &mut Versions, to: u32) {
    if v.floor() <= to {
        v.raise(to);
    }
}

/// The i-th of five questions: of the path its kind, its stamp and its content, the root's names,
/// and how job 2 ended.
fn question(alloc: Global, i: u8, text: &str) -> Result<Question, NoMemory> {
    let path = path(alloc, text.as_bytes())?;
    Ok(match i {
        0 => Question::Kind(path),
        1 => Question::Stamp(path),
        2 => Question::Content(path),
        3 => Question::Names(Path::root()),
        _ => Question::Outcome(2),
    })
}

fn show_names(log: &mut String, names: &NameList) -> Result<(), AllocError> {
    for name in names.names() {
        show_bytes(log, name.bytes())?;
        log.push_str(",")?;
    }
    Ok(())
}

fn show_answer(log: &mut String, answer: &Answer) -> Result<(), AllocError> {
    match answer {
        Answer::Kind(kind) => write!(log, "{kind:?}"),
        Answer::Stamp(Some(stamp)) => write!(log, "{stamp}"),
        Answer::Content(Some(body)) => show_bytes(log, body.bytes()),
        Answer::Names(Some(names)) => show_names(log, names),
        Answer::Outcome(Some(Outcome::Made)) => log.push_str("made"),
        Answer::Outcome(Some(_)) => log.push_str("other"),
        _ => log.push_str("-"),
    }
}

/// What a job is answered, where it isn't below the floor.
fn look(v: &Versions, job: u32, question: &Question) -> Result<Answer, NoMemory> {
    if job < v.floor() {
        return Ok(Answer::Stamp(None));
    }
    v.look(job, question)
}

fn show_look(
    v: &Versions,
    job: u32,
    question: &Question,
    log: &mut String,
) -> Result<(), NoMemory> {
    let answer = look(v, job, question)?;
    show_answer(log, &answer)?;
    Ok(())
}

/// What a job is answered to the i-th question.
fn see_one(
    alloc: Global,
    v: &Versions,
    job: u32,
    i: u8,
    text: &str,
    log: &mut String,
) -> Result<(), NoMemory> {
    let question = question(alloc, i, text)?;
    show_look(v, job, &question, log)
}

fn see(
    alloc: Global,
    v: &Versions,
    job: u32,
    text: &str,
    log: &mut String,
) -> Result<(), NoMemory> {
    for i in 0..5 {
        see_one(alloc, v, job, i, text, log)?;
        log.push_str(" ")?;
    }
    Ok(())
}

/// The last job, and how many steps it took.
fn last(v: &Versions, job: u32, path: &Path) -> (Option<u32>, u64) {
    if job < v.floor() {
        return (None, 0);
    }
    let mut steps = Steps::new();
    let last = v.last(job, path, &mut steps);
    (last, steps.count())
}

/// The last job, if it was found by one step or two; it takes at most two to find none.
fn show_last(log: &mut String, found: (Option<u32>, u64)) -> Result<(), AllocError> {
    match found {
        (Some(job), 1..=2) => write!(log, "{job} "),
        (None, 0..=2) => log.push_str("- "),
        (_, steps) => write!(log, "{steps} steps "),
    }
}

fn tell_last(
    alloc: Global,
    v: &Versions,
    job: u32,
    text: &str,
    log: &mut String,
) -> Result<(), NoMemory> {
    let path = path(alloc, text.as_bytes())?;
    Ok(show_last(log, last(v, job, &path))?)
}

fn count(v: &Versions, log: &mut String) -> Result<(), AllocError> {
    let floor = v.floor();
    let entries = v.entries();
    write!(log, "{floor}:{entries} ")
}

/// Does a step behind those that are done.
fn take_step(
    alloc: Global,
    v: &mut Versions,
    done: &[PostCall],
    step: &PostCall,
    log: &mut String,
) -> Result<(), NoMemory> {
    match step {
        Post(job, changes) => made(alloc, v, *job, changes),
        Upto(job, changes) => upto(alloc, v, *job, changes),
        Withdraw(job) => Ok(withdraw(v, *job)),
        Raise(to) => Ok(raise(v, *to)),
        See(job, text) => see(alloc, v, *job, text, log),
        Last(job, text) => tell_last(alloc, v, *job, text, log),
        Count => Ok(count(v, log)?),
        Walk => walk::show(alloc, v, done, log),
    }
}

fn take_all(
    alloc: Global,
    v: &mut Versions,
    steps: &[PostCall],
    log: &mut String,
) -> Result<(), NoMemory> {
    for i in 0..steps.len() {
        take_step(alloc, v, &steps[..i], &steps[i], log)?;
    }
    Ok(())
}

fn play(alloc: Global, steps: &[PostCall], log: &mut String) -> Result<(), NoMemory> {
    let mut v = start(alloc)?;
    take_all(alloc, &mut v, steps, log)
}

fn log_of(alloc: Global, steps: &[PostCall]) -> Result<String, NoMemory> {
    let mut log = String::new(alloc);
    play(alloc, steps, &mut log)?;
    Ok(log)
}

#[test]
fn posts_are_seen_call_after_call(rt: HostRuntime) -> Result<(), Fail> {
    for (steps, wanted) in &ROWS {
        let log = log_of(rt.alloc(), steps)?;
        assert_eq!(rt; log.as_str(), *wanted);
    }
    Ok(())
}
