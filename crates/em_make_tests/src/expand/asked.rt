//! What is said, kept, asked and paid. What is expected is the result, `|`, what was said, `|`,
//! each text for `eval` with `;`, `|`, each question as a letter (K kind, N names, L link) and its
//! path, `|` and the units used.
use super::{expand_on, set, show, variable, variables};
use crate::usage::show_usage;
use em_base::{Fuel, NoMemory, Text};
use em_expand::Spoken;
use em_states::{put_all, state, states};
use em_tree::State;
use em_vars::{Flavour, Origin, Vars};
use em_view::{Desk, PlainView, ScriptView, View};
use std::alloc::Global;
use std::test::Fail;

fn show_spoken(to: &mut Text, spoken: &Spoken) {
    put_all(to, &[b"|", spoken.said.bytes(), b"|"]);
    for kept in spoken.evals.items() {
        put_all(to, &[kept.bytes(), b";"]);
    }
    put_all(to, &[b"|"]);
}

/// The result of an expansion over a desk, and what was said.
fn show_expansion<V: View>(
    alloc: Global,
    vars: &Vars,
    source: &[u8],
    desk: &mut Desk<V>,
    to: &mut Text,
) {
    let mut spoken = Spoken::new(alloc);
    let given = expand_on(alloc, source, vars, desk, &mut spoken);
    show(to, &given);
    show_spoken(to, &spoken);
}

/// What was asked over a desk, and the units used.
fn show_desk<V: View>(alloc: Global, desk: Desk<V>, to: &mut Text) -> Result<(), Fail> {
    let (usage, _, used) = desk.close();
    show_usage(to, &usage.entries(alloc)?);
    let digits = format!(in alloc; "|{used}")?;
    put_all(to, &[digits.as_bytes()]);
    Ok(())
}

fn told<V: View>(alloc: Global, vars: &Vars, source: &[u8], desk: Desk<V>) -> Result<Text, Fail> {
    let mut desk = desk;
    let mut text = Text::new(alloc);
    show_expansion(alloc, vars, source, &mut desk, &mut text);
    show_desk(alloc, desk, &mut text)?;
    Ok(text)
}

/// The units, a text, and what is expected.
type Row = (u64, &'static [u8], &'static [u8]);

static ROWS: [Row; 20] = [
    (1000, b"$(wildcard *.c)", b"a.c b.c||| N/|4"),
    (1000, b"plain$$", b"plain$||||0"),
    (1000, b"$(zz)", b"||||1"),
    (1000, b"$(A)", b"a||||2"),
    (1000, b"$(B)", b"aa||||6"),
    (1000, b"$(foreach v,a b,x)", b"x x||||4"),
    (1000, b"$(foreach p,x y,$(eval $(p):))", b" ||x:;y:;||10"),
    (
        1000,
        b"$(info x,y)$(warning $A)",
        b"|x,y\nMakefile:7: a\n|||4",
    ),
    (1000, b"$(info x)$(error x)", b"!error x|x\n|||2"),
    (1000, b"$(info x)$(A", b"!unclosed|x\n|||1"),
    (1000, b"$(eval x)$(info y)$(L)", b"!self L|y\n|x;||4"),
    (1000, b"$(if a$(info x))", b"!argument if||||1"),
    (1000, b"$(subst $(info x))", b"!argument subst|x\n|||2"),
    (1000, b"$(or $(info x),b,$(info y))", b"b|x\n|||3"),
    (1, b"$(A)", b"!spent||||1"),
    (0, b"$(A)", b"!spent||||0"),
    (3, b"$(info x)$(zz)$A", b"!spent|x\n|||3"),
    (3, b"$(wildcard *.c)", b"!spent||| N/|3"),
    (2, b"$(foreach v,a b,x)", b"!spent||||2"),
    (
        1000,
        b"$(foreach p,x y,$(eval $(call T,$(p))))",
        b" ||x:\n\techo made x\n;y:\n\techo made y\n;||22",
    ),
];

fn is_told(alloc: Global, vars: &Vars, state: &State, row: &Row) -> Result<bool, Fail> {
    let desk = Desk::new(
        alloc,
        PlainView::new(state),
        1,
        0,
        Fuel::new(row.0.min(1000)),
    );
    Ok(told(alloc, vars, row.1, desk)?.bytes() == row.2)
}

#[test]
fn what_is_said_and_paid(rt: HostRuntime) -> Result<(), Fail> {
    let vars = variables(rt.alloc())?;
    let state = state(rt.alloc(), "f/a.c f/b.c")?;
    for row in &ROWS {
        assert!(rt; is_told(rt.alloc(), &vars, &state, row)?);
    }
    Ok(())
}

fn over_states(alloc: Global, states: Vec<State>, source: &[u8]) -> Result<Text, Fail> {
    if states.is_empty() {
        return Err("no state".into());
    }
    let desk = Desk::new(alloc, ScriptView::new(states), 1, 0, Fuel::new(1000));
    told(alloc, &Vars::new(alloc)?, source, desk)
}

/// A directory with a name, and then none: the second pattern is asked anew.
#[test]
fn each_wildcard_is_asked(rt: HostRuntime) -> Result<(), Fail> {
    let states = states(
        rt.alloc(),
        &["d/d f/d/x", "d/d f/d/x", "d/d f/d/x", "d/d f/d/x", ""],
    )?;
    let given = over_states(rt.alloc(), states, b"$(wildcard d/*) $(wildcard d/*)")?;
    assert!(rt; given.bytes() == b"d/x ||| L/d K/d L/d N/d L/d K/d|7".as_slice());
    Ok(())
}

fn set_text(alloc: Global, vars: &mut Vars, name: &str, text: &str) -> Result<(), NoMemory> {
    let variable = variable(alloc, Flavour::Recursive, Origin::File, text.as_bytes())?;
    set(alloc, vars, name.as_bytes(), variable)
}

/// Sets the variable of this number, which refers to the next.
fn set_link(alloc: Global, vars: &mut Vars, number: u64) -> Result<(), Fail> {
    let name = format!(in alloc; "v{number}")?;
    let next = number.saturating_add(1);
    let text = format!(in alloc; "$(v{next})")?;
    set_text(alloc, vars, name.as_str(), text.as_str())?;
    Ok(())
}

/// So many variables, each of which refers to the next; the last one is a text.
fn chain(alloc: Global, length: u64) -> Result<Vars, Fail> {
    let mut vars = Vars::new(alloc)?;
    for number in 1..length {
        set_link(alloc, &mut vars, number)?;
    }
    let last = format!(in alloc; "v{length}")?;
    set_text(alloc, &mut vars, last.as_str(), "x")?;
    Ok(vars)
}

fn is_chain(
    alloc: Global,
    state: &State,
    length: u64,
    wanted: &'static [u8],
) -> Result<bool, Fail> {
    let vars = chain(alloc, length)?;
    is_told(alloc, &vars, state, &(1000, b"$(v1)", wanted))
}

#[test]
fn two_hundred_variables_are_a_chain(rt: HostRuntime) -> Result<(), Fail> {
    let state = state(rt.alloc(), "")?;
    assert!(rt; is_chain(rt.alloc(), &state, 200, b"x||||400")?);
    assert!(rt; is_chain(rt.alloc(), &state, 201, b"!too deep||||200")?);
    Ok(())
}
