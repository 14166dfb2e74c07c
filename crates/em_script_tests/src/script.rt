//! What is expected is a text: what was written, then `|` and the status, or why there is none: `!`
//! and a letter, `$` for spent fuel.
use em_base::{Construct, Fuel, Text};
use em_path::Path;
use em_script::ShellLine;
use em_states::{put_all, state};
use em_vars::Vars;
use em_view::{Desk, ExecNo, PlainView, View};
use em_word::Shell;
use std::alloc::Global;
use std::test::Fail;
use tables::{COSTS, LINES};

mod tables;

fn name_of(construct: &Construct) -> &'static [u8] {
    match construct {
        Construct::Background => b"!&",
        Construct::Positional => b"!positional",
        Construct::Descriptor => b"!descriptor",
        Construct::Depth => b"!depth",
        Construct::Submake => b"!make",
        Construct::Command(_) => b"!command",
        Construct::Letter(_, _) => b"!letter",
        _ => b"!",
    }
}

fn say_status(alloc: Global, out: &mut Text, status: u8) -> Result<(), Fail> {
    let digits = format!(in alloc; "|{status}")?;
    put_all(out, &[digits.as_bytes()]);
    Ok(())
}

fn no_of(no: &ExecNo) -> &'static [u8] {
    match no {
        ExecNo::Refused(construct) => name_of(construct),
        ExecNo::Spent => b"$",
        ExecNo::NoMemory => b"?",
    }
}

fn say_end(alloc: Global, out: &mut Text, end: &Result<u8, ExecNo>) -> Result<(), Fail> {
    match end {
        Ok(status) => say_status(alloc, out, *status),
        Err(no) => {
            put_all(out, &[no_of(no)]);
            Ok(())
        }
    }
}

/// A shell in the root that has done nothing.
pub fn shell(alloc: Global) -> Result<Shell, Fail> {
    Ok(Shell {
        vars: Vars::new(alloc)?,
        cwd: Path::root(),
        status: 0,
    })
}

/// Runs a line over a desk.
fn run<V: View>(
    alloc: Global,
    line: &ShellLine,
    desk: &mut Desk<V>,
    out: &mut Text,
) -> Result<(), Fail> {
    let mut shell = shell(alloc)?;
    let end = line.run(alloc, &mut shell, desk, out);
    say_end(alloc, out, &end)
}

/// Runs a line over a desk, once it is read.
fn on_desk<V: View>(alloc: Global, line: &[u8], desk: &mut Desk<V>) -> Result<Text, Fail> {
    let line = ShellLine::read(alloc, line)?;
    let mut out = Text::new(alloc);
    run(alloc, &line, desk, &mut out)?;
    Ok(out)
}

/// Runs a line in an empty tree, with so many units.
fn told(alloc: Global, line: &[u8], units: u64) -> Result<Text, Fail> {
    let state = state(alloc, "")?;
    let view = PlainView::new(&state);
    let mut desk = Desk::new(alloc, view, 1, 0, Fuel::new(units.min(9000)));
    on_desk(alloc, line, &mut desk)
}

/// Whether a line is told so.
fn is_told(alloc: Global, line: &str, wanted: &str) -> Result<bool, Fail> {
    let told = told(alloc, line.as_bytes(), 9000)?;
    Ok(told.bytes() == wanted.as_bytes())
}

/// Lines of all constructs.
#[test]
fn lines_run(rt: HostRuntime) -> Result<(), Fail> {
    let alloc = rt.alloc();
    for (line, wanted) in &LINES {
        assert!(rt; is_told(alloc, line, wanted)?);
    }
    Ok(())
}

/// Whether fuel is spent in a line with so many units.
fn is_spent(alloc: Global, line: &str, units: u64) -> Result<bool, Fail> {
    let told = told(alloc, line.as_bytes(), units)?;
    Ok(told.bytes().ends_with(b"$"))
}

/// The units of lines: they suffice, and one less doesn't.
#[test]
fn units_are_counted(rt: HostRuntime) -> Result<(), Fail> {
    let alloc = rt.alloc();
    for (line, units) in &COSTS {
        assert!(rt; !is_spent(alloc, line, *units)?);
        assert!(rt; *units == 0 || is_spent(alloc, line, units.saturating_sub(1))?);
    }
    Ok(())
}

fn put_times(line: &mut Text, times: usize, bytes: &[u8]) {
    for _ in 0..times {
        put_all(line, &[bytes]);
    }
}

/// A command in so many subshells.
fn nested(alloc: Global, levels: usize) -> Text {
    let mut line = Text::new(alloc);
    put_times(&mut line, levels, b"(");
    put_all(&mut line, &[b":"]);
    put_times(&mut line, levels, b")");
    line
}

/// Whether so many subshells come to this.
fn nest_is(alloc: Global, levels: usize, wanted: &[u8]) -> Result<bool, Fail> {
    let line = nested(alloc, levels);
    let told = told(alloc, line.bytes(), 9)?;
    Ok(told.bytes() == wanted)
}

/// 64 levels run, and 65 are refused.
#[test]
fn levels_are_counted(rt: HostRuntime) -> Result<(), Fail> {
    let alloc = rt.alloc();
    assert!(rt; nest_is(alloc, 64, b"|0")?);
    assert!(rt; nest_is(alloc, 65, b"!depth")?);
    Ok(())
}
