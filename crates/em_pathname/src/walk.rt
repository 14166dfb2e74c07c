//! From component to component.
ghost use Rattle.std.specs.Prelude.{◌≡◌, ◌∷◌, [], false, map, IfErr, IfOk};
ghost use Rattle.em_view.specs.Rows.{Acts, is_refusal};
ghost use Rattle.em_pathname.specs.Walking as walking;
ghost use Rattle.em_pathname.specs.Walking.{search, present, look_up_by, look_up, in_dir, in_each, walk};

use crate::found::{PathMatch, name_below, read_name, start};
use crate::names::{appended, bytes_of, components, listed, sorted};
use em_base::{NoMemory, Seq, Text};
use em_glob::{Glyph, is_pattern};
use em_path::Path;
use em_tree::Kind;
use em_view::{Desk, DeskNo, View};
use std::alloc::Global;

/// A component that is a pattern, in a directory.
fn search<V: View>(
    alloc: Global,
    cwd: &Path,
    component: &[Glyph],
    dir: &PathMatch,
    desk: &mut Desk<V>,
) -> Result<Seq<PathMatch>, DeskNo>
    ensures performs { Acts V.tells desk.old desk.new result
        (search cwd.now component.now dir.now) }
    ensures unrefused { IfErr result (λ e. is_refusal e ≡ false) }
{
    let names = desk.names(&dir.path)?;
    Ok(listed(alloc, cwd, dir, component, &names)?)
}

/// The name, if something is there.
fn present(alloc: Global, kind: Kind, found: PathMatch) -> Result<Seq<PathMatch>, NoMemory>
    ensures { IfOk result (λ fs. fs ≡ present kind found) }
{
    let mut all = Seq::new(alloc);
    if kind != Kind::Absent {
        all.push(found)?;
    }
    Ok(all)
}

/// A name, if it is a path at which something is.
fn look_up_found<V: View>(
    alloc: Global,
    found: Option<PathMatch>,
    desk: &mut Desk<V>,
) -> Result<Seq<PathMatch>, DeskNo>
    ensures performs { Acts V.tells desk.old desk.new result (look_up_by found) }
    ensures unrefused { IfErr result (λ e. is_refusal e ≡ false) }
{
    let Some(found) = found else {
        return Ok(Seq::new(alloc));
    };
    let kind = desk.kind(&found.path)?;
    Ok(present(alloc, kind, found)?)
}

/// A component that is no pattern, in a directory.
fn look_up<V: View>(
    alloc: Global,
    cwd: &Path,
    component: &[Glyph],
    dir: &PathMatch,
    desk: &mut Desk<V>,
) -> Result<Seq<PathMatch>, DeskNo>
    ensures performs { Acts V.tells desk.old desk.new result
        (look_up cwd.now component.now dir.now) }
    ensures unrefused { IfErr result (λ e. is_refusal e ≡ false) }
{
    let name = name_below(alloc, dir.name.bytes(), &bytes_of(alloc, component)?)?;
    let found = read_name(alloc, cwd, name)?;
    look_up_found(alloc, found, desk)
}

fn in_dir<V: View>(
    alloc: Global,
    cwd: &Path,
    component: &[Glyph],
    dir: &PathMatch,
    desk: &mut Desk<V>,
) -> Result<Seq<PathMatch>, DeskNo>
    ensures performs { Acts V.tells desk.old desk.new result
        (in_dir cwd.now component.now dir.now) }
    ensures unrefused { IfErr result (λ e. is_refusal e ≡ false) }
{
    if is_pattern(component) {
        search(alloc, cwd, component, dir, desk)
    } else {
        look_up(alloc, cwd, component, dir, desk)
    }
}

/// One component, in each directory so far.
fn in_each<V: View>(
    alloc: Global,
    cwd: &Path,
    component: &[Glyph],
    dirs: &[PathMatch],
    desk: &mut Desk<V>,
) -> Result<Seq<PathMatch>, DeskNo>
    ensures performs { Acts V.tells desk.old desk.new result
        (in_each cwd.now component.now [] dirs.now) }
    ensures unrefused { IfErr result (λ e. is_refusal e ≡ false) }
{
    let mut all = Seq::new(alloc);
    for dir in dirs {
        let more = in_dir(alloc, cwd, component, dir, desk)?;
        all = appended(all, more)?;
    }
    Ok(all)
}

fn walk<V: View>(
    alloc: Global,
    cwd: &Path,
    components: &[&[Glyph]],
    start: Seq<PathMatch>,
    desk: &mut Desk<V>,
) -> Result<Seq<PathMatch>, DeskNo>
    ensures performs { Acts V.tells desk.old desk.new result
        (walk cwd.now (map (λ c. c.now) components.now) start) }
    ensures unrefused { IfErr result (λ e. is_refusal e ≡ false) }
{
    let mut dirs = start;
    for component in components {
        dirs = in_each(alloc, cwd, component, dirs.items(), desk)?;
    }
    Ok(dirs)
}

/// The names that match the pattern, in byte order, as the pattern writes them but for repeated and
/// trailing slashes, which are dropped: below the working directory, or from the root where it
/// begins with `/`; none for the empty pattern. It goes from component to component. A component
/// with a wildcard (a set with a slash in it is none) asks the names of each directory so far, in
/// order, and goes on with those that match; a name that begins with a dot matches only a component
/// that begins with one; `.` and `..` are in no directory's names. Another component asks the kind
/// of each name that it gives, and goes on with those where something is. A name that is no path is
/// dropped and isn't asked. Each question costs what the desk takes for it. `File` never comes.
/// Steps: for each name that is asked its length, for each that is listed its match.
pub fn matching_names<V: View>(
    alloc: Global,
    pattern: &[Glyph],
    cwd: &Path,
    desk: &mut Desk<V>,
) -> Result<Seq<Text>, DeskNo>
    ensures performs { Acts V.tells desk.old desk.new result
        (walking.matching_names cwd.now pattern.now) }
    ensures unrefused { IfErr result (λ e. is_refusal e ≡ false) }
{
    let parts = components(alloc, pattern)?;
    let found = walk(alloc, cwd, &parts, start(alloc, cwd, pattern)?, desk)?;
    Ok(sorted(alloc, found)?)
}
