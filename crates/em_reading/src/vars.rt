//! What assignments and directives make of the variables.
ghost use Rattle.std.specs.Prelude.{◌≡◌, IfOk, OnOk, map, option_copied};
ghost use Rattle.em_reading.specs.Variables as variables;
ghost use Rattle.em_reading.specs.Variables.{all_marked, all_unmarked, assigned, has_text, is_expanded, is_simple, marked, new_value, set, set_if, undefined, unmarked, var, was_exported};
ghost use Rattle.em_vars.specs.Entries.{value_of};

use em_base::{NoMemory, Text};
use em_statement::{Modifiers, Operator};
use em_vars::{Flavour, Origin, Var, Vars};
use std::alloc::Global;

/// Sets the variable, unless one of a higher origin keeps its value.
pub(crate) fn set(alloc: Global, vars: &mut Vars, name: &[u8], v: Var) -> Result<(), NoMemory>
    ensures { OnOk result (vars.new ≡ set vars.old name.now v) }
{
    vars.set(Text::from_slice(alloc, name)?, v)?;
    Ok(())
}

/// `override` ranks above the command line.
fn origin_of(overriding: bool) -> Origin
    ensures { result ≡ variables.origin_of overriding }
{
    if overriding {
        Origin::Override
    } else {
        Origin::File
    }
}

/// Whether the variable of this name has a text that isn't empty.
pub(crate) fn has_text(vars: &Vars, name: &[u8]) -> bool
    ensures { result ≡ has_text vars.now name.now }
{
    match vars.get(name) {
        None => false,
        Some(v) => !v.text.bytes().is_empty(),
    }
}

/// Whether it is there and simple.
fn is_simple(old: Option<&Var>) -> bool
    ensures { result ≡ is_simple (option_copied old.entry) }
{
    match old {
        None => false,
        Some(v) => match v.flavour {
            Flavour::Simple => true,
            Flavour::Recursive => false,
        },
    }
}

/// Whether the value is expanded when it is assigned.
pub fn is_expanded(operator: Operator, vars: &Vars, name: &[u8]) -> bool
    ensures { result ≡ is_expanded operator (value_of vars.now name.now) }
{
    match operator {
        Operator::Recursive => false,
        Operator::IfUndefined => false,
        Operator::Append => is_simple(vars.get(name)),
        Operator::Simple => true,
        Operator::Shell => true,
        Operator::Posix => true,
    }
}

/// A variable.
pub(crate) fn var(origin: Origin, flavour: Flavour, exported: bool, text: Text) -> Var
    ensures { result ≡ var origin flavour exported text }
{
    Var {
        flavour,
        origin,
        text,
        exported,
    }
}

/// Whether it is exported.
pub(crate) fn was_exported(old: Option<&Var>) -> bool
    ensures { result ≡ was_exported (option_copied old.entry) }
{
    match old {
        None => false,
        Some(v) => v.exported,
    }
}

/// What `+=` makes of a variable.
fn appended(alloc: Global, origin: Origin, old: Option<&Var>, value: Text) -> Result<Var, NoMemory>
    ensures { IfOk result (λ v. v ≡ variables.appended origin (option_copied old.entry) value) }
{
    let Some(old) = old else {
        return Ok(var(origin, Flavour::Recursive, false, value));
    };
    let mut text = old.text.copy(alloc)?;
    text.add(b" ")?;
    text.add(value.bytes())?;
    Ok(var(origin, old.flavour, old.exported, text))
}

/// What an operator makes of a variable, if it changes it.
fn new_value(
    alloc: Global,
    origin: Origin,
    operator: Operator,
    old: Option<&Var>,
    value: Text,
) -> Result<Option<Var>, NoMemory>
    ensures { IfOk result (λ v. v ≡ new_value origin operator (option_copied old.entry) value) }
{
    let exported = was_exported(old);
    match operator {
        Operator::Recursive => Ok(Some(var(origin, Flavour::Recursive, exported, value))),
        Operator::Simple => Ok(Some(var(origin, Flavour::Simple, exported, value))),
        Operator::IfUndefined => match old {
            None => Ok(Some(var(origin, Flavour::Recursive, false, value))),
            Some(_) => Ok(None),
        },
        Operator::Append => Ok(Some(appended(alloc, origin, old, value)?)),
        Operator::Shell => Ok(None),
        Operator::Posix => Ok(None),
    }
}

/// Sets the variable, if there is one to set.
fn set_if(alloc: Global, vars: &mut Vars, name: &[u8], v: Option<Var>) -> Result<(), NoMemory>
    ensures { OnOk result (vars.new ≡ set_if vars.old name.now v) }
{
    match v {
        None => Ok(()),
        Some(v) => set(alloc, vars, name, v),
    }
}

/// The variable, exported; an empty one where it isn't there.
fn exported(alloc: Global, old: Option<&Var>) -> Result<Var, NoMemory>
    ensures { IfOk result (λ v. v ≡ variables.exported (option_copied old.entry)) }
{
    match old {
        None => Ok(var(Origin::File, Flavour::Simple, true, Text::new(alloc))),
        Some(v) => Ok(var(v.origin, v.flavour, true, v.text.copy(alloc)?)),
    }
}

/// `export` of a name.
fn mark(alloc: Global, vars: &mut Vars, name: &[u8]) -> Result<(), NoMemory>
    ensures { OnOk result (vars.new ≡ marked vars.old name.now) }
{
    let v = exported(alloc, vars.get(name))?;
    set(alloc, vars, name, v)
}

/// `unexport` of a name.
fn unmark(alloc: Global, vars: &mut Vars, name: &[u8]) -> Result<(), NoMemory>
    ensures { OnOk result (vars.new ≡ unmarked vars.old name.now) }
{
    let Some(old) = vars.get(name) else {
        return Ok(());
    };
    let v = var(old.origin, old.flavour, false, old.text.copy(alloc)?);
    set(alloc, vars, name, v)
}

/// `export` of these names.
pub(crate) fn mark_all(alloc: Global, vars: &mut Vars, names: &[&[u8]]) -> Result<(), NoMemory>
    ensures { OnOk result (vars.new ≡ all_marked vars.old (map (λ n. n.now) names.now)) }
{
    for name in names {
        mark(alloc, vars, name)?;
    }
    Ok(())
}

/// `unexport` of these names.
pub(crate) fn unmark_all(alloc: Global, vars: &mut Vars, names: &[&[u8]]) -> Result<(), NoMemory>
    ensures { OnOk result (vars.new ≡ all_unmarked vars.old (map (λ n. n.now) names.now)) }
{
    for name in names {
        unmark(alloc, vars, name)?;
    }
    Ok(())
}

/// An assignment.
pub(crate) fn assign(
    alloc: Global,
    vars: &mut Vars,
    modifiers: Modifiers,
    operator: Operator,
    name: &[u8],
    value: Text,
) -> Result<(), NoMemory>
    ensures { OnOk result (vars.new ≡ assigned vars.old modifiers operator name.now value) }
{
    let origin = origin_of(modifiers.overriding);
    let v = new_value(alloc, origin, operator, vars.get(name), value)?;
    set_if(alloc, vars, name, v)?;
    if modifiers.exported {
        mark(alloc, vars, name)?;
    }
    Ok(())
}

/// Whether the variable of this name ranks above this origin.
fn ranks_above(vars: &Vars, name: &[u8], overriding: bool) -> bool
    ensures { result ≡ variables.ranks_above vars.now name.now overriding }
{
    match vars.get(name) {
        None => false,
        Some(v) => match v.origin {
            Origin::Automatic => true,
            Origin::Override => !overriding,
            Origin::CommandLine => !overriding,
            Origin::File => false,
            Origin::Default => false,
        },
    }
}

/// `undefine` of a name, which leaves a variable of a higher origin.
pub(crate) fn undefine(vars: &mut Vars, name: &[u8], overriding: bool)
    ensures { vars.new ≡ undefined overriding vars.old name.now }
{
    if !ranks_above(vars, name, overriding) {
        vars.undefine(name);
    }
}
