//! Lines that begin a make within a make, and lines that don't.
use crate::script::shell;
use em_base::{Fuel, Text};
use em_exec::{SubWords, sub_words};
use em_gram::parse;
use em_script::ShellLine;
use em_states::{put_all, state};
use em_view::{Desk, ExecNo, PlainView, View};
use em_word::Shell;
use em_wordlist::join_texts;
use std::alloc::Global;
use std::test::Fail;

/// A line; the units that it takes; what was written, the shell's directory, and what the line
/// comes to: its words, a name that is no directory, its status, or nothing.
type Row = (&'static str, u64, &'static str);

static ROWS: [Row; 28] = [
    ("make x", 1, "/ <x>"),
    ("\"make\" x", 1, "/ <x>"),
    ("m'ak'e x;", 1, "/ <x>"),
    ("emake x y # z", 1, "/ <x y>"),
    ("cd d && emake", 3, "/d <>"),
    // the names of the directory behind `cd`
    ("cd d && make *", 5, "/d <y>"),
    ("make $(echo a b) c", 5, "/ <a b c>"),
    ("cd n && make", 3, "/ no <n>"),
    ("cd f && make", 3, "/ no <f>"),
    ("cd -P && make", 3, "/ no <-P>"),
    // no path isn't asked for
    ("cd '' && make", 2, "/ no <>"),
    // behind `cd` there is no field, or there are two
    ("cd $n && make", 3, "emake: cd: : missing operand\n/ ran 2"),
    (
        "cd ${x-a b} && make",
        4,
        "emake: cd: : extra operand\n/ ran 2",
    ),
    ("make ${x?w}", 2, "emake: sh: x: w\n/ ran 1"),
    ("make | cat", 0, "/ none"),
    ("! make", 0, "/ none"),
    ("x=1 make", 0, "/ none"),
    ("make > f", 0, "/ none"),
    ("$M x", 0, "/ none"),
    ("make && true", 0, "/ none"),
    ("(make)", 0, "/ none"),
    ("make; make", 0, "/ none"),
    ("cd d; make", 0, "/ none"),
    ("cd d || make", 0, "/ none"),
    ("cd d e && make", 0, "/ none"),
    ("cd d > f && make", 0, "/ none"),
    ("make & make", 0, "/ none"),
    ("make if; if", 0, "/ none"),
];

type SubRead = Result<Option<SubWords>, ExecNo>;

/// Of the line.
fn by_line<V: View>(
    alloc: Global,
    line: &[u8],
    shell: &mut Shell,
    desk: &mut Desk<V>,
    out: &mut Text,
) -> SubRead {
    let line = ShellLine::read(alloc, line)?;
    line.sub_words(alloc, shell, desk, out)
}

/// Of the line's script, if it has one.
fn by_script<V: View>(
    alloc: Global,
    line: &[u8],
    shell: &mut Shell,
    desk: &mut Desk<V>,
    out: &mut Text,
) -> SubRead {
    match parse(alloc, line) {
        Ok(script) => sub_words(alloc, &script, shell, desk, out),
        Err(_) => Ok(None),
    }
}

fn put_found(alloc: Global, out: &mut Text, found: &SubRead) -> Result<(), Fail> {
    match found {
        Ok(None) => put_all(out, &[b" none"]),
        Ok(Some(SubWords::Words(words))) => {
            let words = join_texts(alloc, words.items())?;
            put_all(out, &[b" <", words.bytes(), b">"]);
        }
        Ok(Some(SubWords::NoDir(name))) => put_all(out, &[b" no <", name.bytes(), b">"]),
        Ok(Some(SubWords::Status(status))) => put_all(out, &[b" ran ", &[b'0' | (status % 10)]]),
        Err(ExecNo::Spent) => put_all(out, &[b" spent"]),
        Err(_) => put_all(out, &[b" no"]),
    }
    Ok(())
}

/// What the line comes to with so many units, of itself or of its script.
fn told(alloc: Global, line: &str, units: u64, of_script: bool) -> Result<Text, Fail> {
    let state = state(alloc, "d/d f/d/y f/f")?;
    let view = PlainView::new(&state);
    let mut desk = Desk::new(alloc, view, 1, 0, Fuel::new(units.min(9)));
    let mut shell = shell(alloc)?;
    let mut out = Text::new(alloc);
    let found = if of_script {
        by_script(alloc, line.as_bytes(), &mut shell, &mut desk, &mut out)
    } else {
        by_line(alloc, line.as_bytes(), &mut shell, &mut desk, &mut out)
    };
    put_all(&mut out, &[shell.cwd.text()]);
    put_found(alloc, &mut out, &found)?;
    Ok(out)
}

#[test]
fn lines_have_the_words_of_their_make(rt: HostRuntime) -> Result<(), Fail> {
    for (line, units, want) in &ROWS {
        let told = told(rt.alloc(), line, *units, false)?;
        assert!(rt; told.bytes() == want.as_bytes(), "{line}");
    }
    Ok(())
}

#[test]
fn scripts_have_them_too(rt: HostRuntime) -> Result<(), Fail> {
    for (line, units, want) in &ROWS {
        let told = told(rt.alloc(), line, *units, true)?;
        assert!(rt; told.bytes() == want.as_bytes(), "{line}");
    }
    Ok(())
}

/// One unit less doesn't suffice.
#[test]
fn words_take_units(rt: HostRuntime) -> Result<(), Fail> {
    for (line, units, _) in &ROWS {
        let told = told(rt.alloc(), line, units.saturating_sub(1), false)?;
        assert!(rt; *units == 0 || told.bytes().ends_with(b" spent"), "{line}");
    }
    Ok(())
}
