use super::shows::{add_all, show_done, words};
use super::trees::state;
use em_base::{Fuel, NoMemory, Text};
use em_path::Path;
use em_tree::Kind;
use em_utility::{
    OperandNo, Options, Reason, begun, fail, fault, located, named, read, read_options, settle,
    write,
};
use em_view::{Desk, Done, ExecNo, FileNo, PlainView, View};
use std::alloc::Global;
use std::process::Abort;
use std::test::Fail;

fn show_operands(operands: &[Text], log: &mut Text) -> Result<(), NoMemory> {
    for operand in operands {
        add_all(log, &[b" ", operand.bytes()])?;
    }
    Ok(())
}

fn show_options(words: &[Text], options: &Options, log: &mut Text) -> Result<(), NoMemory> {
    let value = match &options.value {
        Some(value) => value.bytes(),
        None => b"",
    };
    let end: &[u8] = if options.lacks { b"?" } else { b"/" };
    add_all(log, &[options.letters.bytes(), b"/", value, end])?;
    show_operands(options.operands(words), log)
}

/// Letters, a slash, the value of `n`, where one is there, a slash, and the operands, each behind a
/// blank; `?` where a value is wanted at the end; `!` for a letter that is refused.
fn show(words: &[Text], given: &Result<Options, ExecNo>, log: &mut Text) -> Result<(), NoMemory> {
    match given {
        Ok(options) => show_options(words, options, log),
        Err(_) => log.add(b"!"),
    }
}

static OPTIONS: [(&str, &str); 15] = [
    ("a -f", "// a -f"),
    ("-fr -f a", "frf// a"),
    ("-f -- -f", "f// -f"),
    ("- -f", "// - -f"),
    ("-5 a", "!"),
    ("-5x a", "// -5x a"),
    ("-- -5", "// -5"),
    ("-1f a", "1f// a"),
    ("-n 5 a", "n/5/ a"),
    ("-n -x -n -- a", "nn/--/ a"),
    ("-f -n", "fn/?"),
    ("-fx a", "!"),
    ("-n5 a", "n/5/ a"),
    ("-fn-x a", "fn/-x/ a"),
    ("-n 3 -fn5 -n4 a", "nfnn/4/ a"),
];

fn is_read(alloc: Global, line: &str, wanted: &str) -> Result<bool, Fail> {
    let words = words(alloc, line)?;
    let given = read_options(alloc, b"u", b"1frn", b"n", &words);
    let mut log = Text::new(alloc);
    show(&words, &given, &mut log)?;
    Ok(log.bytes() == wanted.as_bytes())
}

#[test]
fn options_stand_before_the_operands(rt: HostRuntime) -> Result<(), Fail> {
    for (line, wanted) in &OPTIONS {
        let is_read = is_read(rt.alloc(), line, wanted)?;
        assert!(rt; is_read, "{line}");
    }
    Ok(())
}

fn flags(alloc: Global) -> Result<Options, Fail> {
    let words = words(alloc, "-r")?;
    Ok(read_options(alloc, b"u", b"fr", b"", &words)?)
}

#[test]
fn a_letter_is_given_or_not(rt: HostRuntime) -> Result<(), Fail> {
    let given = flags(rt.alloc())?;
    assert!(rt; given.has(b'r') && !given.has(b'f'));
    Ok(())
}

/// Reads an operand; what it is is written, as a command would.
fn cat<V: View>(
    alloc: Global,
    name: &[u8],
    desk: &mut Desk<V>,
    done: &mut Done,
) -> Result<(), OperandNo> {
    let body = read(alloc, &Path::root(), name, desk)?;
    let text = Text::from_slice(alloc, body.bytes())?;
    Ok(write(done, 1, text)?)
}

fn settled<V: View>(
    alloc: Global,
    name: &[u8],
    desk: &mut Desk<V>,
    done: &mut Done,
) -> Result<(), ExecNo> {
    let given = cat(alloc, name, desk, done);
    settle(alloc, b"cat", given, done)
}

fn cat_all<V: View>(alloc: Global, names: &[&[u8]], desk: &mut Desk<V>) -> Result<Done, ExecNo> {
    let mut done = begun(alloc);
    for name in names {
        settled(alloc, name, desk, &mut done)?;
    }
    Ok(done)
}

fn shown(alloc: Global, done: &Done) -> Result<Text, NoMemory> {
    let mut log = Text::new(alloc);
    show_done(done, &mut log)?;
    Ok(log)
}

fn located_at(alloc: Global, name: &[u8]) -> Result<Path, Fail> {
    match located(alloc, &Path::root(), name) {
        Ok(path) => Ok(path),
        Err(_) => Ok(Path::root()),
    }
}

fn put<V: View>(alloc: Global, name: &[u8], bytes: &[u8], desk: &mut Desk<V>) -> Result<(), Fail> {
    let path = located_at(alloc, name)?;
    desk.put(&path, bytes)?;
    Ok(())
}

static NAMES: [&[u8]; 5] = [b"q", b"f", b"/", b"empty", b""];

/// What is written of the names, where `f` is a file and `empty` an empty one.
fn cat_over<V: View>(alloc: Global, desk: &mut Desk<V>) -> Result<Text, Fail> {
    put(alloc, b"f", b"x\n", desk)?;
    put(alloc, b"empty", b"", desk)?;
    let done = cat_all(alloc, NAMES.as_slice(), desk)?;
    Ok(shown(alloc, &done)?)
}

fn cat_log(alloc: Global) -> Result<Text, Fail> {
    let state = state(alloc, &[])?;
    let mut desk = Desk::new(alloc, PlainView::new(&state), 1, 0, Fuel::new(20));
    cat_over(alloc, &mut desk)
}

#[test]
fn each_fault_is_written_and_the_next_operand_is_read(rt: HostRuntime) -> Result<(), Fail> {
    let log = cat_log(rt.alloc())?;
    let wanted = concat!(
        "12emake: cat: q: absent\n",
        "1x\n",
        "2emake: cat: /: is a directory\n",
        "2emake: cat: : bad path\n"
    );
    assert!(rt; log.bytes() == wanted.as_bytes());
    Ok(())
}

static REASONS: [Reason; 12] = [
    Reason::File(FileNo::NoParent),
    Reason::File(FileNo::NotDir),
    Reason::File(FileNo::Exists),
    Reason::File(FileNo::NotEmpty),
    Reason::File(FileNo::TooBig),
    Reason::File(FileNo::Root),
    Reason::File(FileNo::TooManyLinks),
    Reason::File(FileNo::LinkPath),
    Reason::SameFile,
    Reason::NotANumber,
    Reason::MissingOperand,
    Reason::ExtraOperand,
];

/// What is written for a reason.
fn show_reason(alloc: Global, reason: Reason, log: &mut Text) -> Result<(), NoMemory> {
    let mut done = begun(alloc);
    fail(alloc, &mut done, b"u", b"o", reason)?;
    show_done(&done, log)
}

fn lines(alloc: Global) -> Result<Text, NoMemory> {
    let mut log = Text::new(alloc);
    for reason in &REASONS {
        show_reason(alloc, *reason, &mut log)?;
    }
    Ok(log)
}

#[test]
fn each_reason_has_its_words_and_its_status(rt: HostRuntime) -> Result<(), Fail> {
    let wanted = concat!(
        "12emake: u: o: no parent\n",
        "12emake: u: o: not a directory\n",
        "12emake: u: o: exists\n",
        "12emake: u: o: not empty\n",
        "12emake: u: o: too big\n",
        "12emake: u: o: root\n",
        "12emake: u: o: too many links\n",
        "12emake: u: o: bad path\n",
        "12emake: u: o: same file\n",
        "22emake: u: o: not a number\n",
        "22emake: u: o: missing operand\n",
        "22emake: u: o: extra operand\n"
    );
    assert!(rt; lines(rt.alloc())?.bytes() == wanted.as_bytes());
    Ok(())
}

#[test]
fn a_refusal_is_a_fault_of_the_operand(rt: HostRuntime) -> Result<(), Fail> {
    let alloc = rt.alloc();
    let kind: Result<Kind, OperandNo> = named(alloc, b"o", Ok(Kind::Dir));
    assert!(rt; kind == Ok(Kind::Dir));
    let name = Text::from_slice(alloc, b"o")?;
    let no = fault(alloc, b"o", Reason::BadPath);
    assert!(rt; no == OperandNo::Fault(name, Reason::BadPath));
    Ok(())
}
