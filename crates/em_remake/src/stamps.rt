//! Whether makefiles were remade.
ghost use Rattle.std.specs.Prelude.{◌≡◌, IfOk};
ghost use Rattle.em_remake.specs.Remaking.{changed, is_changed};

use em_base::{NoMemory, Text};
use em_path::{Path, PathNo};
use em_tree::Tree;
use std::alloc::Global;

/// Whether what stands at the name, behind the links on its way, has another stamp in the one tree
/// than in the other. Nothing stands at a name that is no path.
fn is_changed(
    alloc: Global,
    before: &Tree,
    after: &Tree,
    cwd: &Path,
    name: &[u8],
) -> Result<bool, NoMemory>
    ensures { IfOk result (λ b. b ≡ is_changed before.now after.now cwd.now name.now) }
{
    match Path::read(alloc, cwd, name) {
        Ok(path) => Ok(before.stamp_behind(&path)? != after.stamp_behind(&path)?),
        Err(PathNo::NoMemory) => Err(NoMemory),
        Err(_) => Ok(false),
    }
}

/// Whether one of the names, read against the working directory, has another stamp in the tree
/// after than in the tree before, behind the links on its way. Where nothing stands at a name, or
/// it is no path, it has none: so one that came or went has changed.
///
/// Two searches for each name, up to the first that has changed.
pub fn changed(
    alloc: Global,
    before: &Tree,
    after: &Tree,
    names: &[Text],
    cwd: &Path,
) -> Result<bool, NoMemory>
    ensures { IfOk result (λ b. b ≡ changed before.now after.now names.now cwd.now) }
{
    for name in names {
        if is_changed(alloc, before, after, cwd, name.bytes())? {
            return Ok(true);
        }
    }
    Ok(false)
}
