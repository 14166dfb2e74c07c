//! How a reading begins.
ghost use Rattle.std.specs.Prelude.{◌≡◌, ◌||◌, fold, slice_get, IfOk, OnOk};
ghost use Rattle.em_reading.specs.Start.{default, is_of_order, given, given_at, given_one, start, start_vars, with_assigned, with_defaults};
ghost use Rattle.em_reading.specs.Variables as variables;

use crate::reading::Reading;
use crate::vars::{set, var, was_exported};
use em_base::{NoMemory, Seq, Text};
use em_cond::Nest;
use em_expand::Spoken;
use em_path::Path;
use em_rules::Book;
use em_vars::{Flavour, Origin, Var, Vars};
use em_wordlist::join_texts;
use std::alloc::Global;

/// Whether a command line assigns it.
fn is_of_order(origin: Origin) -> bool
    ensures { result ≡ is_of_order origin }
{
    matches!(origin, Origin::CommandLine)
}

/// Whether a make hands it to a shell.
fn is_given(v: &Var) -> bool
    ensures { result ≡ v.now.exported || is_of_order v.now.origin }
{
    v.exported || is_of_order(v.origin)
}

/// The variable as an exported default, if a make hands it to a shell.
fn give_one(alloc: Global, vars: &mut Vars, name: &[u8], v: &Var) -> Result<(), NoMemory>
    ensures { OnOk result (vars.new ≡ given_one vars.old (name.now, v.now)) }
{
    if !is_given(v) {
        return Ok(());
    }
    let v = var(Origin::Default, v.flavour, true, v.text.copy(alloc)?);
    set(alloc, vars, name, v)
}

/// The variable of this number as an exported default, if a make hands it to a shell.
fn give_at(alloc: Global, vars: &mut Vars, defaults: &Vars, i: usize) -> Result<(), NoMemory>
    ensures { OnOk result (vars.new ≡ given_at vars.old (slice_get defaults.now i)) }
{
    match defaults.at(i) {
        None => Ok(()),
        Some((name, v)) => give_one(alloc, vars, name, v),
    }
}

/// The variables that a make hands to a shell, as exported defaults.
fn given(alloc: Global, defaults: &Vars) -> Result<Vars, NoMemory>
    ensures { IfOk result (λ vars. vars ≡ given defaults.now) }
{
    let mut vars = Vars::new(alloc)?;
    for i in 0..defaults.len() {
        give_at(alloc, &mut vars, defaults, i)?;
    }
    Ok(vars)
}

/// Sets a default.
fn set_default(alloc: Global, vars: &mut Vars, name: &[u8], text: Text) -> Result<(), NoMemory>
    ensures { OnOk result (vars.new ≡ variables.set vars.old name.now (default text)) }
{
    set(
        alloc,
        vars,
        name,
        var(Origin::Default, Flavour::Simple, false, text),
    )
}

/// Sets the defaults.
fn set_defaults(alloc: Global, vars: &mut Vars, cwd: &[u8], goals: &[Text]) -> Result<(), NoMemory>
    ensures { OnOk result (vars.new ≡ with_defaults vars.old cwd.now goals.now) }
{
    set_default(alloc, vars, b"MAKE", Text::from_slice(alloc, b"emake")?)?;
    set_default(alloc, vars, b"CURDIR", Text::from_slice(alloc, cwd)?)?;
    set_default(alloc, vars, b"MAKECMDGOALS", join_texts(alloc, goals)?)
}

/// Makes an assignment of the command line. A variable that is exported stays so.
fn set_assigned(alloc: Global, vars: &mut Vars, assigned: &(Text, Text)) -> Result<(), NoMemory>
    ensures { OnOk result (vars.new ≡ with_assigned vars.old assigned.now) }
{
    let (name, value) = assigned;
    let text = value.copy(alloc)?;
    let exported = was_exported(vars.get(name.bytes()));
    let v = var(Origin::CommandLine, Flavour::Simple, exported, text);
    set(alloc, vars, name.bytes(), v)
}

/// Makes the assignments of the command line.
fn set_all_assigned(
    alloc: Global,
    vars: &mut Vars,
    assigned: &[(Text, Text)],
) -> Result<(), NoMemory>
    ensures { OnOk result (vars.new ≡ fold with_assigned vars.old assigned.now) }
{
    for one in assigned {
        set_assigned(alloc, vars, one)?;
    }
    Ok(())
}

/// The variables at the start: those of `defaults` that a make hands to a shell, the exported ones
/// and those of its command line, as exported defaults; `MAKE`, which is `emake`, `CURDIR`, the
/// working directory, and `MAKECMDGOALS`, the goals, which are simple defaults; the assignments of
/// the command line, which are simple, and exported where the variable was. A copy of each text,
/// and two searches for each.
pub fn start_vars(
    alloc: Global,
    goals: &[Text],
    assigned: &[(Text, Text)],
    cwd: &Path,
    defaults: &Vars,
) -> Result<Vars, NoMemory>
    ensures { IfOk result
        (λ vars. vars ≡ start_vars goals.now assigned.now cwd.now defaults.now) }
{
    let mut vars = given(alloc, defaults)?;
    set_defaults(alloc, &mut vars, cwd.text(), goals)?;
    set_all_assigned(alloc, &mut vars, assigned)?;
    Ok(vars)
}

/// Nothing is read yet; this was said before. No files are noted. Takes no memory.
pub fn start(alloc: Global, cwd: Path, vars: Vars, said: Text) -> Result<Reading, NoMemory>
    ensures { IfOk result (λ r. r ≡ start cwd vars said) }
{
    let mut book = Book::new(alloc)?;
    book.vars = vars;
    let mut spoken = Spoken::new(alloc);
    spoken.said = said;
    Ok(Reading {
        cwd,
        book,
        nest: Nest::new(alloc),
        opened: Seq::new(alloc),
        begun: None,
        around: 0,
        define: None,
        spoken,
        noted: None,
    })
}
