//! Commands over a small tree. A script is commands with `;` between them, each of words with a
//! blank between them. Its transcript has for each command its status, and each piece that it wrote
//! behind the number of its stream; `-` for what is no file utility, `!` and the letter for an
//! option that is refused, `!` and the name for a command that is, `$` for spent fuel; and then
//! `;`.
use super::shows::{add_all, show_done, words};
use super::trees::{NodeRow, state};
use em_base::{Construct, Fuel, NoMemory, Text};
use em_fileutil::utility;
use em_path::Path;
use em_tree::{Answer, Entry, Kind, Question, State};
use em_view::{Desk, Done, ExecNo, PlainView, ScriptView, View};
use std::alloc::Global;
use std::process::Abort;
use std::test::Fail;

mod tables;

fn show_no(no: &ExecNo, log: &mut Text) -> Result<(), NoMemory> {
    match no {
        ExecNo::Refused(Construct::Letter(_, letter)) => log.add(&[b'!', *letter]),
        ExecNo::Refused(Construct::Command(name)) => add_all(log, &[b"!", name.bytes()]),
        ExecNo::Spent => log.add(b"$"),
        _ => log.add(b"?"),
    }
}

fn show(end: &Result<Option<Done>, ExecNo>, log: &mut Text) -> Result<(), NoMemory> {
    match end {
        Ok(Some(done)) => show_done(done, log),
        Ok(None) => log.add(b"-"),
        Err(no) => show_no(no, log),
    }
}

fn call<V: View>(
    alloc: Global,
    words: &[Text],
    desk: &mut Desk<V>,
    log: &mut Text,
) -> Result<(), NoMemory> {
    let end = utility(alloc, words, b"", &Path::root(), desk);
    show(&end, log)
}

/// Runs a command over a desk.
fn run_command<V: View>(
    alloc: Global,
    command: &str,
    desk: &mut Desk<V>,
    log: &mut Text,
) -> Result<(), Fail> {
    let words = words(alloc, command)?;
    call(alloc, &words, desk, log)?;
    log.add(b";")?;
    Ok(())
}

/// Runs a script over a desk.
fn run<V: View>(alloc: Global, script: &str, desk: &mut Desk<V>) -> Result<Text, Fail> {
    let mut log = Text::new(alloc);
    for command in script.split(';') {
        run_command(alloc, command, desk, &mut log)?;
    }
    Ok(log)
}

/// What a script writes where a file `b`, a directory `d` with `x` and `.h`, and an empty directory
/// `e` are, over a desk that has done nothing.
fn run_behind<V: View>(alloc: Global, script: &str, desk: &mut Desk<V>) -> Result<Text, Fail> {
    run(alloc, "touch b;mkdir d e;touch d/x d/.h", desk)?;
    run(alloc, script, desk)
}

fn transcript(alloc: Global, script: &str) -> Result<Text, Fail> {
    let state = state(alloc, &[])?;
    let mut desk = Desk::new(alloc, PlainView::new(&state), 1, 0, Fuel::new(1000));
    run_behind(alloc, script, &mut desk)
}

fn is_written(alloc: Global, script: &str, wanted: &str) -> Result<bool, Fail> {
    Ok(transcript(alloc, script)?.bytes() == wanted.as_bytes())
}

#[test]
fn each_utility_does_as_posix_says(rt: HostRuntime) -> Result<(), Fail> {
    for (script, wanted) in &tables::SCRIPTS {
        let is_written = is_written(rt.alloc(), script, wanted)?;
        assert!(rt; is_written, "{script}");
    }
    Ok(())
}

/// A file `b` of two bytes, with the stamp 1, beside nothing.
static BESIDE_B: [NodeRow; 1] = [(b"/b", Some(b"x\n"), 1)];

fn question_letter(question: &Question) -> &'static [u8] {
    match question {
        Question::Kind(_) => b"K",
        Question::Stamp(_) => b"S",
        Question::Content(_) => b"C",
        Question::Names(_) => b"N",
        Question::Link(_) => b"L",
        Question::Outcome(_) => b"O",
    }
}

fn path_of(question: &Question) -> &[u8] {
    match question {
        Question::Kind(path) => path.text(),
        Question::Stamp(path) => path.text(),
        Question::Content(path) => path.text(),
        Question::Names(path) => path.text(),
        Question::Link(path) => path.text(),
        Question::Outcome(_) => b"",
    }
}

fn answer_name(answer: &Answer) -> &'static [u8] {
    match answer {
        Answer::Kind(Kind::Absent) => b"=absent ",
        Answer::Kind(Kind::File) => b"=file ",
        Answer::Kind(Kind::Dir) => b"=directory ",
        _ => b" ",
    }
}

fn show_entry(entry: &Entry, log: &mut Text) -> Result<(), NoMemory> {
    log.add(question_letter(&entry.question))?;
    log.add(path_of(&entry.question))?;
    log.add(answer_name(&entry.answer))
}

fn show_usage(usage: &[Entry], log: &mut Text) -> Result<(), NoMemory> {
    for entry in usage {
        show_entry(entry, log)?;
    }
    Ok(())
}

fn show_desk<V: View>(alloc: Global, desk: Desk<V>, log: &mut Text) -> Result<(), NoMemory> {
    let (usage, _changes, _fuel) = desk.close();
    show_usage(&usage.entries(alloc)?, log)
}

/// What a script writes over a desk, and what it asks.
fn run_to_end<V: View>(alloc: Global, script: &str, desk: Desk<V>) -> Result<Text, Fail> {
    let mut desk = desk;
    let mut log = run(alloc, script, &mut desk)?;
    show_desk(alloc, desk, &mut log)?;
    Ok(log)
}

/// What a script writes beside `b`, and what it asks, with so many units.
fn asked(alloc: Global, script: &str, units: u64) -> Result<Text, Fail> {
    let state = state(alloc, BESIDE_B.as_slice())?;
    let view = PlainView::new(&state);
    let desk = Desk::new(alloc, view, 1, 0, Fuel::new(units.min(1000)));
    run_to_end(alloc, script, desk)
}

/// A script, its units, and what it writes and asks.
static ASKED: [(&str, u64, &str); 11] = [
    // the target's kind, the source's kind and bytes, and what `put` asks: 1 + 1 + 2 + 2 units
    (
        "cp b a",
        6,
        "0;L/a K/a=absent L/b K/b=file L/b C/b L/a K/a=absent K/=directory ",
    ),
    (
        "cp b a",
        5,
        "$;L/a K/a=absent L/b K/b=file L/b C/b L/a K/a=absent K/=directory ",
    ),
    // the link and then the kind; `remove` follows nothing
    ("rm b", 3, "0;L/b L/b K/b=file K/b=file "),
    ("rm b", 2, "$;L/b L/b K/b=file "),
    (
        "rmdir b",
        2,
        "12emake: rmdir: b: not a directory\n;L/b L/b K/b=file ",
    ),
    // the target's kind, then the source's link, kind, bytes and stamp, and what `place` and
    // `remove` ask: 1 + 1 + 1 + 2 + 1 + 2 + 1 units
    (
        "mv b a",
        9,
        concat!(
            "0;L/a K/a=absent L/b L/b K/b=file L/b C/b L/b S/b K/a=absent K/=directory ",
            "K/b=file "
        ),
    ),
    (
        "mv b a",
        8,
        "$;L/a K/a=absent L/b L/b K/b=file L/b C/b L/b S/b K/a=absent K/=directory ",
    ),
    // `make_link` takes the block of the text: 1 + 2 units
    ("ln -s b l", 3, "0;L/l K/l=absent K/l=absent K/=directory "),
    ("ln -s b l", 2, "$;L/l K/l=absent K/l=absent K/=directory "),
    // with `-f` the link and the kind of the place, too; what own changes name isn't asked, and the
    // text that is read takes its block: 1 + 1 + 1 + 2 + 2 units
    (
        "ln -sf b l;readlink l",
        7,
        "0;01b\n;L/l K/l=absent L/l L/l K/l=absent K/l=absent K/=directory ",
    ),
    ("readlink b", 1, "1;L/b "),
];

#[test]
fn commands_ask_in_this_order(rt: HostRuntime) -> Result<(), Fail> {
    for (script, units, wanted) in &ASKED {
        let given = asked(rt.alloc(), script, *units)?;
        assert!(rt; given.bytes() == wanted.as_bytes(), "{script}");
    }
    Ok(())
}

/// The stamp of `a` after `b` was moved there.
fn stamp_of_a<V: View>(alloc: Global, desk: &mut Desk<V>) -> Result<Option<u64>, Fail> {
    run(alloc, "mv b a", desk)?;
    let a = Path::read(alloc, &Path::root(), b"a")?;
    Ok(desk.stamp(&a)?)
}

fn moved_stamp(alloc: Global) -> Result<Option<u64>, Fail> {
    let state = state(alloc, BESIDE_B.as_slice())?;
    let mut desk = Desk::new(alloc, PlainView::new(&state), 100, 0, Fuel::new(20));
    stamp_of_a(alloc, &mut desk)
}

#[test]
fn a_file_that_is_moved_keeps_its_stamp(rt: HostRuntime) -> Result<(), Fail> {
    let stamp = moved_stamp(rt.alloc())?;
    assert!(rt; stamp == Some(1));
    Ok(())
}

/// A directory `d` with `x` in it.
static WITH_X: [NodeRow; 2] = [(b"/d", None, 1), (b"/d/x", Some(b""), 1)];

static WITHOUT_X: [NodeRow; 1] = [(b"/d", None, 1)];

/// `x` is there until `d` is listed, which is the fifth question, and is gone then.
fn states(alloc: Global) -> Result<Vec<State>, Fail> {
    let mut states = Vec::new(alloc);
    for _ in 0..5 {
        states.push(state(alloc, WITH_X.as_slice())?)?;
    }
    states.push(state(alloc, WITHOUT_X.as_slice())?)?;
    Ok(states)
}

fn over_states(alloc: Global, states: Vec<State>) -> Result<Text, Fail> {
    if states.is_empty() {
        return Err("no state".into());
    }
    let mut desk = Desk::new(alloc, ScriptView::new(states), 1, 0, Fuel::new(20));
    run(alloc, "rm -r d", &mut desk)
}

#[test]
fn what_was_listed_and_is_absent_then_is_a_fault(rt: HostRuntime) -> Result<(), Fail> {
    let given = over_states(rt.alloc(), states(rt.alloc())?)?;
    assert!(rt; given.bytes() == b"12emake: rm: d/x: absent\n;".as_slice());
    Ok(())
}
