//! Commands over a small tree. A script is commands with `;` between them, each of words and
//! redirections with a blank between them; `~` is an empty word. Its transcript has for each
//! command what it wrote, the errors between `<` and `>`, its status, and a letter where what
//! follows isn't run: `E` for `exit`, `B` for `break` and `C` for `continue`. A command without an
//! end has `!` and what is refused, or `$` for spent fuel. A command in capitals makes a call that
//! em_exec makes.
use crate::shells;
use em_base::{Construct, Fuel, NoMemory, Seq, Text};
use em_command::{Flow, Here, Jump, Streams, deliver, hand, perform, redirect};
use em_states::{put_all, state, states};
use em_syntax::RedirectKind;
use em_tree::{Body, State};
use em_utility::Reason;
use em_vars::Vars;
use em_view::{Desk, ExecNo, FileNo, Piece, PlainView, ScriptView, View};
use em_word::WordFault;
use std::alloc::Global;
use std::test::Fail;

mod tables;

fn fd_of(word: &[u8]) -> (Option<u8>, &[u8]) {
    match word.split_first() {
        Some((first, rest)) if first.is_ascii_digit() => (Some(*first & 15), rest),
        _ => (None, word),
    }
}

fn operator_of(text: &[u8]) -> Option<(u8, RedirectKind, &[u8])> {
    if let Some(rest) = text.strip_prefix(b">>".as_slice()) {
        return Some((1, RedirectKind::Append, rest));
    }
    if let Some(rest) = text.strip_prefix(b">&".as_slice()) {
        return Some((1, RedirectKind::Duplicate, rest));
    }
    if let Some(rest) = text.strip_prefix(b">".as_slice()) {
        return Some((1, RedirectKind::Write, rest));
    }
    let rest = text.strip_prefix(b"<".as_slice())?;
    Some((0, RedirectKind::Read, rest))
}

/// A redirection: its stream, its kind and its word.
fn redirection(word: &[u8]) -> Option<(u8, RedirectKind, &[u8])> {
    let (fd, text) = fd_of(word);
    let (usual, kind, target) = operator_of(text)?;
    Some((fd.unwrap_or(usual), kind, target))
}

fn text(alloc: Global, bytes: &[u8]) -> Result<Text, NoMemory> {
    Text::from_slice(alloc, bytes)
}

fn add_word(alloc: Global, word: &[u8], words: &mut Vec<Text>) -> Result<(), NoMemory> {
    let word = if word == b"~".as_slice() { b"" } else { word };
    words.push(text(alloc, word)?)?;
    Ok(())
}

/// The streams behind a word of a command, unless it is a redirection that fails.
fn read_word<V: View>(
    alloc: Global,
    word: &[u8],
    words: &mut Vec<Text>,
    streams: Streams,
    here: &mut Here,
    desk: &mut Desk<V>,
) -> Result<Option<Streams>, Jump> {
    match redirection(word) {
        None => {
            add_word(alloc, word, words)?;
            Ok(Some(streams))
        }
        Some((fd, kind, target)) => redirect(alloc, fd, kind, target, streams, here, desk),
    }
}

/// The words of a command, and where its streams go, unless a redirection fails.
fn read_command<V: View>(
    alloc: Global,
    command: &str,
    words: &mut Vec<Text>,
    here: &mut Here,
    desk: &mut Desk<V>,
) -> Result<Option<Streams>, Jump> {
    let mut streams = Streams::around(alloc);
    for word in command.split(' ') {
        match read_word(alloc, word.as_bytes(), words, streams, here, desk)? {
            Some(behind) => streams = behind,
            None => return Ok(None),
        }
    }
    Ok(Some(streams))
}

fn write(alloc: Global, stream: u8, bytes: &[u8], here: &mut Here) -> Result<(), Jump> {
    let text = text(alloc, bytes)?;
    here.write(stream, text)
}

fn write_three(alloc: Global, here: &mut Here) -> Result<(), Jump> {
    write(alloc, 1, b"b", here)?;
    write(alloc, 2, b"c", here)?;
    write(alloc, 1, b"d", here)
}

/// A copy of the shell with the status 7, which has written to both streams.
fn copy_of(alloc: Global, here: &Here) -> Result<Here, Jump> {
    let mut copy = here.branch(alloc)?;
    write_three(alloc, &mut copy)?;
    copy.shell.status = 7;
    Ok(copy)
}

/// Each variable with its text, and `!` where it is exported.
fn vars_of(alloc: Global, here: &Here) -> Text {
    let mut log = Text::new(alloc);
    for (name, v) in here.shell.vars.iter() {
        let mark: &[u8] = if v.exported { b"!" } else { b"," };
        put_all(&mut log, &[name.as_slice(), b"=", v.text.bytes(), mark]);
    }
    log
}

fn input_of(alloc: Global, streams: &Streams) -> Result<Text, NoMemory> {
    let around = Body::from_slice(alloc, b"around")?;
    let input = streams.input(&around)?;
    text(alloc, input.bytes())
}

fn write_input(alloc: Global, streams: &Streams, here: &mut Here) -> Result<(), Jump> {
    let input = input_of(alloc, streams)?;
    here.write(1, input)
}

fn write_vars(alloc: Global, here: &mut Here) -> Result<(), Jump> {
    let vars = vars_of(alloc, here);
    here.write(1, vars)
}

fn set(alloc: Global, here: &mut Here) -> Result<(), Jump> {
    let three = text(alloc, b"3")?;
    here.assign(alloc, b"a", three)
}

fn hand_copy(alloc: Global, streams: &Streams, here: &mut Here) -> Result<(), Jump> {
    let copy = copy_of(alloc, here)?;
    hand(streams, copy.pieces, here)
}

fn deliver_copy<V: View>(
    alloc: Global,
    streams: &Streams,
    here: &mut Here,
    desk: &mut Desk<V>,
) -> Result<(), Jump> {
    let copy = copy_of(alloc, here)?;
    deliver(alloc, streams, copy.pieces, here, desk)
}

fn rejoin(alloc: Global, here: &mut Here) -> Result<(), Jump> {
    let copy = copy_of(alloc, here)?;
    here.rejoin(copy, Err(Jump::Exit))
}

fn rejoin_stuck(alloc: Global, here: &mut Here) -> Result<(), Jump> {
    let copy = copy_of(alloc, here)?;
    here.rejoin(copy, Err(Jump::End(ExecNo::Spent)))
}

fn overhear(alloc: Global, here: &mut Here) -> Result<(), Jump> {
    let copy = copy_of(alloc, here)?;
    let output = here.overhear(alloc, copy, Err(Jump::Exit))?;
    here.write(1, output)
}

fn unset(alloc: Global, here: &mut Here) -> Result<(), Jump> {
    let line = text(alloc, b"line")?;
    Err(here.fault(WordFault::Unset(line)))
}

/// What a command in capitals does.
#[derive(Clone, Copy)]
enum ExecCall {
    Input,
    Set,
    Vars,
    Hand,
    Deliver,
    Rejoin,
    Stuck,
    Overhear,
    Complain,
    Unset,
    Refused,
    Spent,
}

static CALLS: [(&str, ExecCall); 12] = [
    ("INPUT", ExecCall::Input),
    ("SET", ExecCall::Set),
    ("VARS", ExecCall::Vars),
    ("HAND", ExecCall::Hand),
    ("DELIVER", ExecCall::Deliver),
    ("REJOIN", ExecCall::Rejoin),
    ("STUCK", ExecCall::Stuck),
    ("OVERHEAR", ExecCall::Overhear),
    ("COMPLAIN", ExecCall::Complain),
    ("UNSET", ExecCall::Unset),
    ("REFUSED", ExecCall::Refused),
    ("SPENT", ExecCall::Spent),
];

fn call_of(words: &[Text]) -> Option<ExecCall> {
    let name = words.first()?;
    for (known, call) in &CALLS {
        if known.as_bytes() == name.bytes() {
            return Some(*call);
        }
    }
    None
}

/// Calls what em_exec calls.
fn run_call<V: View>(
    alloc: Global,
    call: ExecCall,
    streams: &Streams,
    here: &mut Here,
    desk: &mut Desk<V>,
) -> Result<(), Jump> {
    match call {
        ExecCall::Input => write_input(alloc, streams, here),
        ExecCall::Set => set(alloc, here),
        ExecCall::Vars => write_vars(alloc, here),
        ExecCall::Hand => hand_copy(alloc, streams, here),
        ExecCall::Deliver => deliver_copy(alloc, streams, here, desk),
        ExecCall::Rejoin => rejoin(alloc, here),
        ExecCall::Stuck => rejoin_stuck(alloc, here),
        ExecCall::Overhear => overhear(alloc, here),
        ExecCall::Complain => here.complain(alloc, b"w", Reason::File(FileNo::TooBig)),
        ExecCall::Unset => unset(alloc, here),
        ExecCall::Refused => Err(here.fault(WordFault::Refused(Construct::Submake))),
        ExecCall::Spent => Err(here.fault(WordFault::Spent)),
    }
}

fn run_words<V: View>(
    alloc: Global,
    in_loop: bool,
    words: &[Text],
    streams: &Streams,
    here: &mut Here,
    desk: &mut Desk<V>,
) -> Result<(), Jump> {
    match call_of(words) {
        Some(call) => run_call(alloc, call, streams, here, desk),
        None => perform(alloc, words, streams, b"in", in_loop, here, desk),
    }
}

fn run_command<V: View>(
    alloc: Global,
    in_loop: bool,
    command: &str,
    here: &mut Here,
    desk: &mut Desk<V>,
) -> Result<(), Jump> {
    let mut words = Vec::new(alloc);
    match read_command(alloc, command, &mut words, here, desk)? {
        Some(streams) => run_words(alloc, in_loop, &words, &streams, here, desk),
        None => Ok(()),
    }
}

fn show_pieces(pieces: &[Piece], log: &mut Text) {
    for piece in pieces {
        let (before, behind): (&[u8], &[u8]) = if piece.stream == 2 {
            (b"<", b">")
        } else {
            (b"", b"")
        };
        put_all(log, &[before, piece.text.bytes(), behind]);
    }
}

fn show_status(status: u8, log: &mut Text) {
    if status >= 100 {
        put_all(log, &[&[b'0' | (status / 100), b'0' | (status / 10 % 10)]]);
    }
    put_all(log, &[&[b'0' | (status % 10)]]);
}

fn show_construct(construct: &Construct, log: &mut Text) {
    match construct {
        Construct::Letter(utility, letter) => {
            put_all(log, &[b"!", utility.bytes(), b" -", &[*letter]])
        }
        Construct::Command(name) => put_all(log, &[b"!", name.bytes()]),
        Construct::Submake => put_all(log, &[b"!emake"]),
        Construct::Descriptor => put_all(log, &[b"!descriptor"]),
        _ => put_all(log, &[b"!?"]),
    }
}

fn show_no(no: &ExecNo, log: &mut Text) {
    match no {
        ExecNo::Refused(construct) => show_construct(construct, log),
        ExecNo::Spent => put_all(log, &[b"$"]),
        ExecNo::NoMemory => put_all(log, &[b"!?"]),
    }
}

fn show_end(ended: &Result<(), Jump>, status: u8, log: &mut Text) {
    let letter: &[u8] = match ended {
        Err(Jump::End(no)) => return show_no(no, log),
        Err(Jump::Exit) => b"E",
        Err(Jump::Break) => b"B",
        Err(Jump::Continue) => b"C",
        Ok(()) => b"",
    };
    show_status(status, log);
    put_all(log, &[letter]);
}

/// Shows what was written, and how it ended.
fn show(ended: &Result<(), Jump>, here: &Here, log: &mut Text) {
    show_pieces(here.pieces.items(), log);
    show_end(ended, here.shell.status, log);
    put_all(log, &[b";"]);
}

/// A shell in the root that has written nothing.
fn shell(alloc: Global) -> Result<Here, NoMemory> {
    let shell = shells::shell(Vars::new(alloc)?, 0);
    Ok(Here::new(alloc, shell))
}

/// Runs a command over a desk, and shows what comes of it.
fn show_command<V: View>(
    alloc: Global,
    in_loop: bool,
    command: &str,
    here: &mut Here,
    desk: &mut Desk<V>,
    log: &mut Text,
) {
    let ended = run_command(alloc, in_loop, command, here, desk);
    show(&ended, here, log);
}

/// Runs a script over a desk.
fn run<V: View>(
    alloc: Global,
    in_loop: bool,
    script: &str,
    here: &mut Here,
    desk: &mut Desk<V>,
) -> Text {
    let mut log = Text::new(alloc);
    for command in script.split(';') {
        show_command(alloc, in_loop, command, here, desk, &mut log);
        here.pieces = Seq::new(alloc);
    }
    log
}

/// What a script writes where a file `f`, which holds `b` and a newline, and a directory `d` are,
/// over a desk that has done nothing.
fn run_behind<V: View>(
    alloc: Global,
    in_loop: bool,
    script: &str,
    desk: &mut Desk<V>,
) -> Result<Text, NoMemory> {
    let mut here = shell(alloc)?;
    run(alloc, false, "echo b >f;mkdir d", &mut here, desk);
    Ok(run(alloc, in_loop, script, &mut here, desk))
}

fn transcript(alloc: Global, in_loop: bool, script: &str) -> Result<Text, Fail> {
    let state = state(alloc, "")?;
    let mut desk = Desk::new(alloc, PlainView::new(&state), 1, 0, Fuel::new(1000));
    Ok(run_behind(alloc, in_loop, script, &mut desk)?)
}

fn is_written(alloc: Global, in_loop: bool, script: &str, wanted: &str) -> Result<bool, Fail> {
    Ok(transcript(alloc, in_loop, script)?.bytes() == wanted.as_bytes())
}

#[test]
fn commands_do_as_posix_says(rt: HostRuntime) -> Result<(), Fail> {
    for (in_loop, script, wanted) in &tables::SCRIPTS {
        let is_written = is_written(rt.alloc(), *in_loop, script, wanted)?;
        assert!(rt; is_written, "{script}");
    }
    Ok(())
}

/// A script, its units, what it writes, and how many units are left.
type Costly = (&'static str, u64, &'static str, u64);

/// `put` of nothing 1, the block of what was written 1, `content` of an empty file 1, `put` of two
/// bytes 2.
static COSTLY: [Costly; 7] = [
    ("echo x >b", 5, "0;", 0),
    ("echo x >b", 4, "$;", 0),
    ("echo x >b", 1, "$;", 0),
    ("echo x", 0, "$;", 0),
    ("echo x >/dev/null", 2, "0;", 1),
    ("pwd x", 1, "<emake: pwd: : extra operand\n>2;", 0),
    ("false >/dev/null", 0, "1;", 0),
];

/// What a script writes over a desk that has done nothing.
fn run_first<V: View>(alloc: Global, script: &str, desk: &mut Desk<V>) -> Result<Text, NoMemory> {
    let mut here = shell(alloc)?;
    Ok(run(alloc, false, script, &mut here, desk))
}

/// Whether a script beside nothing costs so much.
fn is_cost(alloc: Global, row: &Costly) -> Result<bool, Fail> {
    let state = state(alloc, "")?;
    let view = PlainView::new(&state);
    let mut desk = Desk::new(alloc, view, 1, 0, Fuel::new(row.1.min(1000)));
    let log = run_first(alloc, row.0, &mut desk)?;
    Ok(log.bytes() == row.2.as_bytes() && desk.left() == row.3)
}

#[test]
fn a_redirected_command_costs(rt: HostRuntime) -> Result<(), Fail> {
    for row in &COSTLY {
        let is_cost = is_cost(rt.alloc(), row)?;
        let script = row.0;
        assert!(rt; is_cost, "{script}");
    }
    Ok(())
}

fn over_states(alloc: Global, states: Vec<State>, script: &str) -> Result<Text, Fail> {
    if states.is_empty() {
        return Err("no state".into());
    }
    let mut desk = Desk::new(alloc, ScriptView::new(states), 1, 0, Fuel::new(20));
    Ok(run_first(alloc, script, &mut desk)?)
}

/// `f` is a file when it is looked at and read, and is a directory then.
#[test]
fn an_append_that_is_refused_is_told_around(rt: HostRuntime) -> Result<(), Fail> {
    let states = states(rt.alloc(), &["b/f", "b/f", "b/f", "b/f", "d/f"])?;
    let given = over_states(rt.alloc(), states, "echo a 2>/dev/null >>f")?;
    assert!(rt; given.bytes() == b"<emake: sh: f: is a directory\n>1;".as_slice());
    Ok(())
}

#[test]
fn flows_are_jumps(rt: HostRuntime) -> Result<(), Fail> {
    assert!(rt; Flow::Break.jump() == Err(Jump::Break));
    assert!(rt; Flow::On.jump() == Ok(()));
    Ok(())
}
