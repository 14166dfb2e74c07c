//! Names of a directory against a component.
ghost use Rattle.std.specs.Prelude.{◌≡◌, ◌++◌, ◌∷◌, [], map, IfOk, OnOk};
ghost use Rattle.std.specs.List.{slice_split};
ghost use Rattle.std.specs.Option.{option_to_list};
ghost use Rattle.em_glob.specs.Patterns.{bytes_of};
ghost use Rattle.em_pathname.specs.Walking.{components, is_slash, is_hidden, shows, those_that_match, listed, sorted};

use crate::found::{PathMatch, begins_with, name_below, read_name};
use em_base::{NoMemory, Seq, Text};
use em_glob::{Glyph, matches};
use em_path::Path;
use em_tree::NameList;
use std::alloc::Global;

/// What stands between the slashes of a pattern.
fn parts(alloc: Global, pattern: &[Glyph]) -> Result<Vec<&[Glyph]>, NoMemory>
    ensures { IfOk result (λ v. map (λ c. c.now) v.items ≡ slice_split is_slash pattern.now) }
{
    Ok(pattern.split(|g| g.byte == b'/').collect(alloc)?)
}

/// The same without what is empty.
pub(crate) fn components(alloc: Global, pattern: &[Glyph]) -> Result<Vec<&[Glyph]>, NoMemory>
    ensures { IfOk result (λ v. map (λ c. c.now) v.items ≡ components pattern.now) }
{
    let mut parts = parts(alloc, pattern)?;
    parts.retain(|c| !c.is_empty());
    Ok(parts)
}

/// The bytes of a component, quoted or not.
pub(crate) fn bytes_of(alloc: Global, component: &[Glyph]) -> Result<Vec<u8>, NoMemory>
    ensures { IfOk result (λ v. v.items ≡ bytes_of component.now) }
{
    Ok(component.iter().map(|g| g.byte).collect(alloc)?)
}

fn is_hidden(name: &[u8]) -> bool
    ensures { result ≡ is_hidden name.now }
{
    name.first().is_some_and(|b| *b == b'.')
}

/// Whether a name of a directory matches the component: one that begins with a dot only where that
/// begins with one too.
fn shows(component: &[Glyph], name: &[u8]) -> bool
    ensures { result ≡ shows component.now name.now }
{
    (!is_hidden(name) || begins_with(b'.', component)) && matches(component, name)
}

/// The name in the directory, if it matches and is a path.
fn shown(
    alloc: Global,
    cwd: &Path,
    dir: &PathMatch,
    component: &[Glyph],
    name: &[u8],
) -> Result<Option<PathMatch>, NoMemory>
    ensures { IfOk result
        (λ f. those_that_match cwd.now dir.now component.now (name.now ∷ []) ≡ option_to_list f) }
{
    if !shows(component, name) {
        return Ok(None);
    }
    read_name(alloc, cwd, name_below(alloc, dir.name.bytes(), name)?)
}

fn push_shown(all: &mut Seq<PathMatch>, found: Option<PathMatch>) -> Result<(), NoMemory>
    ensures { OnOk result (all.new ≡ all.old ++ option_to_list found) }
{
    if let Some(found) = found {
        all.push(found)?;
    }
    Ok(())
}

/// Those of a directory's names that match the component.
fn those_that_match(
    alloc: Global,
    cwd: &Path,
    dir: &PathMatch,
    component: &[Glyph],
    names: &[Text],
) -> Result<Seq<PathMatch>, NoMemory>
    ensures { IfOk result (λ fs. fs ≡ those_that_match cwd.now dir.now component.now names.now) }
{
    let mut all = Seq::new(alloc);
    for name in names {
        push_shown(&mut all, shown(alloc, cwd, dir, component, name.bytes())?)?;
    }
    Ok(all)
}

/// The same of what was told of the directory's names, if it is one.
pub(crate) fn listed(
    alloc: Global,
    cwd: &Path,
    dir: &PathMatch,
    component: &[Glyph],
    names: &Option<NameList>,
) -> Result<Seq<PathMatch>, NoMemory>
    ensures { IfOk result (λ fs. fs ≡ listed cwd.now dir.now component.now names.now) }
{
    match names {
        Some(names) => those_that_match(alloc, cwd, dir, component, names.names()),
        None => Ok(Seq::new(alloc)),
    }
}

/// The names with others behind them.
pub(crate) fn appended(
    so_far: Seq<PathMatch>,
    more: Seq<PathMatch>,
) -> Result<Seq<PathMatch>, NoMemory>
    ensures { IfOk result (λ all. all ≡ so_far ++ more) }
{
    let mut all = so_far.into_vec();
    all.extend(more.into_vec())?;
    Ok(Seq::from_vec(all))
}

fn names_of(alloc: Global, found: Seq<PathMatch>) -> Result<Vec<Text>, NoMemory>
    ensures { IfOk result (λ v. v.items ≡ map (λ f. f.name) found) }
{
    Ok(found.into_vec().into_iter().map(|f| f.name).collect(alloc)?)
}

/// The names, in byte order.
pub(crate) fn sorted(alloc: Global, found: Seq<PathMatch>) -> Result<Seq<Text>, NoMemory>
    ensures { IfOk result (λ ns. ns ≡ sorted (map (λ f. f.name) found)) }
{
    let mut names = names_of(alloc, found)?;
    names.sort_unstable();
    names.dedup();
    Ok(Seq::from_vec(names))
}
