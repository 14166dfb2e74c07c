//! `wildcard` over small trees. What is expected is a text: the result, `|`, each question as a
//! letter (K kind, N names, L link) and its path, `|`, and the units used.
use crate::usage::show_usage;
use em_base::{Fuel, Text};
use em_namefn::wildcard;
use em_path::Path;
use em_states::{put_all, state, states};
use em_tree::State;
use em_view::{Desk, DeskNo, PlainView, ScriptView, View};
use std::alloc::Global;
use std::test::Fail;

fn show_names(to: &mut Text, given: &Result<Text, DeskNo>) {
    match given {
        Ok(names) => put_all(to, &[names.bytes(), b" |"]),
        Err(DeskNo::Spent) => put_all(to, &[b"Spent |"]),
        Err(_) => put_all(to, &[b"! |"]),
    }
}

fn call<V: View>(alloc: Global, cwd: &Path, patterns: &str, desk: &mut Desk<V>, to: &mut Text) {
    let given = wildcard(alloc, patterns.as_bytes(), cwd, desk);
    show_names(to, &given);
}

/// What was asked over a desk, and the units used.
fn show_desk<V: View>(alloc: Global, desk: Desk<V>, to: &mut Text) -> Result<(), Fail> {
    let (usage, _, used) = desk.close();
    show_usage(to, &usage.entries(alloc)?);
    let digits = format!(in alloc; " | {used}")?;
    put_all(to, &[digits.as_bytes()]);
    Ok(())
}

/// The result, the questions and the units of one call over a desk.
fn called<V: View>(alloc: Global, cwd: &Path, patterns: &str, desk: Desk<V>) -> Result<Text, Fail> {
    let mut desk = desk;
    let mut text = Text::new(alloc);
    call(alloc, cwd, patterns, &mut desk, &mut text);
    show_desk(alloc, desk, &mut text)?;
    Ok(text)
}

const TREE: &str = "f/a.c f/b.c f/.h.c d/d f/d/x1 f/d/x2 f/d/.z d/e d/a-b f/a-b/x d/a f/a/x";

/// A working directory, patterns, the units, and what is expected.
type Row = (&'static str, &'static str, u64, &'static str);

static PLAIN: [Row; 25] = [
    ("/", "*.c", 100, "a.c b.c | N/ | 2"),
    ("/", ".*", 100, ".h.c | N/ | 2"),
    ("/", "d/*", 100, "d/x1 d/x2 | L/d K/d L/d N/d | 3"),
    ("/", "d/.*", 100, "d/.z | L/d K/d L/d N/d | 3"),
    (
        "/",
        "*/x",
        100,
        "a-b/x a/x | N/ L/a L/a/x K/a/x L/a-b L/a-b/x K/a-b/x L/a.c L/a.c/x K/a.c/x \
         L/b.c L/b.c/x K/b.c/x L/d L/d/x K/d/x L/e L/e/x K/e/x | 8",
    ),
    ("/", "*/", 100, "a a-b a.c b.c d e | N/ | 2"),
    ("/", "d//x*", 100, "d/x1 d/x2 | L/d K/d L/d N/d | 3"),
    ("/", "/", 100, "/ | | 0"),
    ("/", "/*.c", 100, "/a.c /b.c | N/ | 2"),
    ("/", "a.c no", 100, "a.c | L/a.c K/a.c L/no K/no | 2"),
    ("/", "no/*", 100, " | L/no K/no | 1"),
    ("/", "a.c/*", 100, " | L/a.c K/a.c L/a.c N/a.c | 2"),
    ("/", "./a.c", 100, "./a.c | K/ L/a.c K/a.c | 2"),
    (
        "/",
        "d/../*.c",
        100,
        "d/../a.c d/../b.c | L/d K/d K/ N/ | 4",
    ),
    ("/", "[ab].c", 100, "a.c b.c | N/ | 2"),
    ("/", "[!a].c", 100, "b.c | N/ | 2"),
    ("/", "[a.c", 100, " | L/[a.c K/[a.c | 1"),
    ("/", "?.c *.c", 100, "a.c b.c a.c b.c | N/ N/ | 4"),
    ("/", "", 100, " | | 0"),
    ("/d", "x*", 100, "x1 x2 | L/d N/d | 2"),
    ("/d", "../*.c", 100, "../a.c ../b.c | K/ N/ | 3"),
    ("/", "*.c", 2, "a.c b.c | N/ | 2"),
    ("/", "*.c", 1, "Spent | N/ | 1"),
    ("/", "*.c", 0, "Spent | | 0"),
    ("/", "e/no", 1, "Spent | L/e K/e | 1"),
];

fn is_plain(alloc: Global, state: &State, row: &Row) -> Result<bool, Fail> {
    let cwd = Path::from_text(alloc, row.0.as_bytes())?.ok_or("no path")?;
    let desk = Desk::new(
        alloc,
        PlainView::new(state),
        1,
        0,
        Fuel::new(row.2.min(100)),
    );
    Ok(called(alloc, &cwd, row.1, desk)?.bytes() == row.3.as_bytes())
}

#[test]
fn names_that_match_are_given_in_byte_order(rt: HostRuntime) -> Result<(), Fail> {
    let state = state(rt.alloc(), TREE)?;
    for row in &PLAIN {
        assert!(rt; is_plain(rt.alloc(), &state, row)?);
    }
    Ok(())
}

/// The states of a view, patterns, and what is expected.
type WildcardRow = (&'static [&'static str], &'static str, &'static str);

/// A directory that is listed and then is none, one that is there and then has no names, and one of
/// which nothing is left.
static SCRIPTS: [WildcardRow; 4] = [
    (
        &["d/d f/d/x", "d/d f/d/x", "d/d f/d/x", "d/d f/d/x", ""],
        "d/* d/*",
        "d/x | L/d K/d L/d N/d L/d K/d | 4",
    ),
    (
        &["d/d f/d/x", "d/d f/d/x", "", ""],
        "d/*",
        " | L/d K/d L/d N/d | 2",
    ),
    (
        &["d/d", "f/d", "f/d", "d/d f/d/x"],
        "*/*",
        " | N/ L/d N/d | 3",
    ),
    (
        &["f/a", "", "", "f/a"],
        "* a a",
        "a a | N/ L/a K/a L/a K/a | 4",
    ),
];

fn over_states(alloc: Global, states: Vec<State>, patterns: &str) -> Result<Text, Fail> {
    if states.is_empty() {
        return Err("no state".into());
    }
    let desk = Desk::new(alloc, ScriptView::new(states), 1, 0, Fuel::new(100));
    called(alloc, &Path::root(), patterns, desk)
}

fn is_script(alloc: Global, row: &WildcardRow) -> Result<bool, Fail> {
    let states = states(alloc, row.0)?;
    Ok(over_states(alloc, states, row.1)?.bytes() == row.2.as_bytes())
}

#[test]
fn what_a_view_answers_need_not_fit_together(rt: HostRuntime) -> Result<(), Fail> {
    for row in &SCRIPTS {
        assert!(rt; is_script(rt.alloc(), row)?);
    }
    Ok(())
}
