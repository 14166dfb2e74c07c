//! Expansions over a small tree, with a few variables. What is expected is a text: the result, or a
//! refusal between `!` and its name. Values are GNU make's.
use em_base::{Fuel, NoMemory, Place, Text};
use em_expand::{ExpandNo, Layers, Spoken, expand};
use em_path::Path;
use em_states::{put_all, put_part, state};
use em_tree::State;
use em_vars::{Flavour, Origin, Var, Vars};
use em_view::{Desk, PlainView, View};
use std::alloc::Global;
use std::process::Abort;
use std::test::Fail;

mod asked;
mod refused;
mod values;

fn variable(alloc: Global, flavour: Flavour, origin: Origin, text: &[u8]) -> Result<Var, NoMemory> {
    Ok(Var {
        flavour,
        origin,
        text: Text::from_slice(alloc, text)?,
        exported: false,
    })
}

fn set(alloc: Global, vars: &mut Vars, name: &[u8], variable: Var) -> Result<(), NoMemory> {
    vars.set(Text::from_slice(alloc, name)?, variable)?;
    Ok(())
}

/// A name, and its variable.
type Named = (&'static [u8], Flavour, Origin, &'static [u8]);

static VARIABLES: [Named; 17] = [
    (b"A", Flavour::Recursive, Origin::File, b"a"),
    (b"B", Flavour::Recursive, Origin::File, b"$(A)$(A)"),
    (b"a", Flavour::Simple, Origin::File, b"deep"),
    (b"S", Flavour::Simple, Origin::File, b"$(1) simple"),
    (b"E", Flavour::Simple, Origin::File, b""),
    (b"SP", Flavour::Simple, Origin::File, b" "),
    (b"X", Flavour::Recursive, Origin::File, b"a.c b.c  d.h"),
    (
        b"f",
        Flavour::Recursive,
        Origin::File,
        b"[$(0)|$(1)|$(2)|$(3)]",
    ),
    (b"j", Flavour::Recursive, Origin::File, b"<$(p)>"),
    (
        b"h",
        Flavour::Recursive,
        Origin::File,
        b"$(if $(1),$(1)$(call h,$(2)))",
    ),
    (b"L", Flavour::Recursive, Origin::File, b"$(L)"),
    (b"M", Flavour::Recursive, Origin::File, b"$(call M)"),
    (
        b"T",
        Flavour::Recursive,
        Origin::File,
        b"$(1):\n\techo made $(1)\n",
    ),
    (b"cl", Flavour::Simple, Origin::CommandLine, b"1"),
    (b"ov", Flavour::Simple, Origin::Override, b"2"),
    (b"de", Flavour::Simple, Origin::Default, b"3"),
    (b"@", Flavour::Simple, Origin::Automatic, b"goal"),
];

fn set_row(alloc: Global, vars: &mut Vars, row: &Named) -> Result<(), NoMemory> {
    let variable = variable(alloc, row.1, row.2, row.3)?;
    set(alloc, vars, row.0, variable)
}

fn variables(alloc: Global) -> Result<Vars, NoMemory> {
    let mut vars = Vars::new(alloc)?;
    for row in &VARIABLES {
        set_row(alloc, &mut vars, row)?;
    }
    Ok(vars)
}

/// A refusal: its name, and what it names.
fn told(no: &ExpandNo) -> (&'static [u8], &[u8]) {
    match no {
        ExpandNo::SelfReference(name) => (b"!self ", name.bytes()),
        ExpandNo::UserError(text) => (b"!error ", text.bytes()),
        ExpandNo::BadArgument(name) => (b"!argument ", name.bytes()),
        ExpandNo::Refused(name) => (b"!refused ", name.bytes()),
        ExpandNo::Unclosed => (b"!unclosed", b""),
        ExpandNo::Spent => (b"!spent", b""),
        ExpandNo::TooDeep => (b"!too deep", b""),
        ExpandNo::NoMemory => (b"!memory", b""),
    }
}

/// A refusal's name, or the text.
fn show(to: &mut Text, given: &Result<Text, ExpandNo>) {
    match given {
        Ok(text) => put_all(to, &[text.bytes()]),
        Err(no) => {
            let (name, detail) = told(no);
            put_part(to, name);
            put_part(to, detail);
        }
    }
}

/// Expands a text over a desk, in the seventh line of a makefile.
fn expand_on<V: View>(
    alloc: Global,
    source: &[u8],
    vars: &Vars,
    desk: &mut Desk<V>,
    spoken: &mut Spoken,
) -> Result<Text, ExpandNo> {
    let file = Text::from_slice(alloc, b"Makefile")?;
    let place = Place { file, line: 7 };
    let vars = Layers {
        shared: vars,
        own: &[],
    };
    expand(alloc, source, &vars, &Path::root(), &place, desk, spoken)
}

/// What the expansion of a text gives, with much fuel.
fn given(alloc: Global, vars: &Vars, state: &State, source: &[u8]) -> Result<Text, ExpandNo> {
    let mut spoken = Spoken::new(alloc);
    let mut desk = Desk::new(alloc, PlainView::new(state), 1, 0, Fuel::new(100_000));
    expand_on(alloc, source, vars, &mut desk, &mut spoken)
}

fn is_given(alloc: Global, vars: &Vars, state: &State, source: &[u8], wanted: &[u8]) -> bool {
    let given = given(alloc, vars, state, source);
    let mut text = Text::new(alloc);
    show(&mut text, &given);
    text.bytes() == wanted
}

/// A text, and its expansion.
type Row = (&'static [u8], &'static [u8]);

/// Expands each text with the variables above, and compares.
fn compare(rt: &impl Abort, alloc: Global, rows: &[Row]) -> Result<(), Fail> {
    let vars = variables(alloc)?;
    let state = state(alloc, "f/a.c f/b.c")?;
    for (source, wanted) in rows {
        assert!(rt; is_given(alloc, &vars, &state, source, wanted));
    }
    Ok(())
}
