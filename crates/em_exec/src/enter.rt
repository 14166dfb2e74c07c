//! The directory of a line `cd W && make`, and the words there.
ghost use Rattle.std.specs.Prelude.{◌≡◌, Some, IfOk};
ghost use Rattle.em_command.specs.Jumps.{is_free};
ghost use Rattle.em_exec.specs.Running.{script_at};
ghost use Rattle.em_exec.specs.Subs as subs;
ghost use Rattle.em_view.specs.Steps.{Does};

use crate::parts::charge_unit;
use crate::sub::{WordsHeard, behind_first, fields_in};
use em_base::{NoMemory, Text};
use em_command::{Here, Jump, Scene};
use em_path::{Path, PathNo};
use em_syntax::Simple;
use em_tree::Kind;
use em_view::{Desk, View};
use std::alloc::Global;

/// Into the directory at a path, if there is one: whether there is.
fn enter_path<V: View>(path: Path, here: &mut Here, desk: &mut Desk<V>) -> Result<bool, Jump>
    ensures { Does is_free V.tells desk.old desk.new here.old here.new result
        (subs.enter_by (Some path)) }
{
    match desk.kind(&path)? {
        Kind::Dir => {
            here.shell.cwd = path;
            Ok(true)
        }
        Kind::Absent => Ok(false),
        Kind::File => Ok(false),
        Kind::Link => Ok(false),
    }
}

/// The path that a name is, read against the working directory; none where it is no path.
fn path_of(alloc: Global, cwd: &Path, name: &[u8]) -> Result<Option<Path>, NoMemory>
    ensures { IfOk result (λ p. p ≡ subs.path_of cwd.now name.now) }
{
    match Path::read(alloc, cwd, name) {
        Ok(path) => Ok(Some(path)),
        Err(PathNo::NoMemory) => Err(NoMemory),
        Err(_) => Ok(None),
    }
}

/// Into a directory, if there is one: whether there is. A name that is no path isn't asked for.
fn enter<V: View>(
    alloc: Global,
    name: &[u8],
    here: &mut Here,
    desk: &mut Desk<V>,
) -> Result<bool, Jump>
    ensures { Does is_free V.tells desk.old desk.new here.old here.new result
        (subs.enter name.now) }
{
    match path_of(alloc, &here.shell.cwd, name)? {
        Some(path) => enter_path(path, here, desk),
        None => Ok(false),
    }
}

/// The command's unit, the directory, and then the words, which are expanded there.
pub(crate) fn inside<V: View>(
    alloc: Global,
    left: u32,
    name: &Text,
    make: &Simple,
    scene: &Scene,
    here: &mut Here,
    desk: &mut Desk<V>,
) -> Result<WordsHeard, Jump>
    ensures { Does is_free V.tells desk.old desk.new here.old here.new result
        (subs.inside (script_at left) scene.now name.now make.now) }
{
    charge_unit(desk)?;
    if !enter(alloc, name.bytes(), here, desk)? {
        return Ok(WordsHeard::Missed(name.copy(alloc)?));
    }
    let words = fields_in(alloc, left, make, scene, here, desk)?;
    Ok(WordsHeard::Told(behind_first(words)))
}
