//! The plan in what a desk sees.

use crate::plan::book;
use crate::through::show_asked;
use crate::written::names;
use em_base::{Fuel, NoMemory, Text};
use em_path::Path;
use em_plan::{Plan, PlanJob, PlanNo, SharedJob, plan, plan_through};
use em_states::{state, states};
use em_tree::Tree;
use em_view::{Desk, PlainView, ScriptView, View};
use std::alloc::Global;
use std::test::Fail;

/// Two names that a pattern rule makes, one that has a recipe, and what they need.
static MAKEFILE: &[u8] = b"all|b.o a.o|c.o|;c.o|c.h||;%.o|%.c||";

/// Nodes, the units, and what is expected of `all`: the targets of the jobs in order, with `:`
/// behind those that have a rule, and the paths whose kinds were asked, in order.
static ROWS: [(&str, u64, &[u8]); 5] = [
    (
        "f/a.c f/b.c",
        9,
        b"jobs b.c b.o: a.c a.o: c.h c.o: all: /b.c /a.c",
    ),
    ("f/a.c", 9, b"jobs b.o a.c a.o: c.h c.o: all: /b.c /a.c"),
    ("f/c.c", 9, b"jobs b.o a.o c.h c.o: all: /b.c /a.c"),
    ("f/a.c f/b.c", 1, b"out of fuel /b.c"),
    ("", 0, b"out of fuel"),
];

/// Two names that hang on one question. That one of them stands twice asks nothing more.
static TWICE: &[u8] = b"all|a.o a.s a.o||;%.o|%.c||;%.s|%.c||";

/// What is there when the question is put first, what is there later, and what is expected of
/// `all`.
static ANSWERS: [(&str, &str, &[u8]); 4] = [
    ("f/a.c", "f/a.c", b"jobs a.c a.o: a.s: all: /a.c /a.c"),
    ("f/a.c", "", b"jobs a.c a.o: a.s all: /a.c /a.c"),
    ("", "f/a.c", b"jobs a.o a.c a.s: all: /a.c /a.c"),
    ("", "", b"jobs a.o a.s all: /a.c /a.c"),
];

fn mark(job: &PlanJob) -> &'static [u8] {
    if job.ruled { b":" } else { b"" }
}

fn show_jobs(jobs: &[SharedJob], text: &mut Text) -> Result<(), NoMemory> {
    for job in jobs {
        text.add(b" ")?;
        text.add(job.get().target.bytes())?;
        text.add(mark(job.get()))?;
    }
    Ok(())
}

fn show_plan(plan: &Result<Plan, PlanNo>, text: &mut Text) -> Result<(), NoMemory> {
    match plan {
        Ok(plan) => {
            text.add(b"jobs")?;
            show_jobs(plan.jobs.items(), text)
        }
        Err(PlanNo::NoTargets) => text.add(b"no targets"),
        Err(PlanNo::TooManyJobs) => text.add(b"too many jobs"),
        Err(PlanNo::Spent) => text.add(b"out of fuel"),
        Err(PlanNo::NoMemory) => text.add(b"out of memory"),
    }
}

/// What came of it.
type Planned = Result<Plan, PlanNo>;

/// The plan for the goals through a view, and it as a text with what was asked for it.
fn through<V: View>(
    alloc: Global,
    rules: &[u8],
    goals: &[u8],
    view: V,
    units: u64,
) -> Result<(Planned, Text), Fail> {
    let book = book(alloc, rules)?;
    let goals = names(alloc, goals)?;
    let mut desk = Desk::new(alloc, view, 1, 0, Fuel::new(units.min(9)));
    let plan = plan_through(alloc, &book, goals.items(), &mut desk, &Path::root());
    let mut text = Text::new(alloc);
    show_plan(&plan, &mut text)?;
    let (usage, _, _) = desk.close();
    show_asked(&usage.entries(alloc)?, &mut text)?;
    Ok((plan, text))
}

/// The plan for `all` over a tree.
fn over_tree(alloc: Global, tree: &Tree) -> Result<Plan, Fail> {
    let book = book(alloc, MAKEFILE)?;
    let goals = names(alloc, b"all")?;
    Ok(plan(alloc, &book, goals.items(), tree, &Path::root())?)
}

/// It is the one that is expected, and the one over the tree.
#[test]
fn a_desk_is_asked_in_the_order_of_the_walk(rt: HostRuntime) -> Result<(), Fail> {
    for (nodes, units, want) in &ROWS {
        let state = state(rt.alloc(), nodes)?;
        let view = PlainView::new(&state);
        let (plan, text) = through(rt.alloc(), MAKEFILE, b"all", view, *units)?;
        assert!(rt; text.bytes() == *want, "{nodes}");
        let over_tree = over_tree(rt.alloc(), &state.tree)?;
        assert!(rt; *units != 9 || plan == Ok(over_tree), "{nodes}");
    }
    Ok(())
}

/// The question is put by two asks: whether there is a link, and of which kind the path is.
#[test]
fn one_question_may_be_answered_differently(rt: HostRuntime) -> Result<(), Fail> {
    for (first, later, want) in &ANSWERS {
        let states = states(rt.alloc(), &[*first, *first, *later])?;
        if states.is_empty() {
            return Err("no state".into());
        }
        let (_, text) = through(rt.alloc(), TWICE, b"all", ScriptView::new(states), 9)?;
        assert!(rt; text.bytes() == *want, "{first}, {later}");
    }
    Ok(())
}

#[test]
fn without_a_goal_nothing_is_asked(rt: HostRuntime) -> Result<(), Fail> {
    let state = state(rt.alloc(), "f/a.c")?;
    let (_, text) = through(rt.alloc(), MAKEFILE, b"", PlainView::new(&state), 0)?;
    assert!(rt; text.bytes() == b"no targets".as_slice());
    Ok(())
}
