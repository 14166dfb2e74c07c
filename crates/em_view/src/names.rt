//! The names of a directory under a job's own changes.
ghost use Rattle.std.specs.Prelude.{◌≡◌, IfOk, OnOk, option_copied};
ghost use Rattle.em_path.specs.Paths.{last_of};
ghost use Rattle.em_tree.specs.Names.{IsNameList};
ghost use Rattle.em_view.specs.Names.{amended, amended_all, with_own, names_size};

use em_base::{NoMemory, Text};
use em_path::Path;
use em_tree::{Delta, NameList, Node};
use std::alloc::Global;
use std::collections::BTreeSet;
use std::collections::btree_set::Iter;

fn name_set(alloc: Global, names: &[Text]) -> Result<BTreeSet<Text>, NoMemory>
    requires { IsNameList names.now }
    ensures { IfOk result (λ s. s.keys ≡ names.now) }
{
    let mut set = BTreeSet::new(alloc);
    for name in names {
        set.insert(name.copy(alloc)?)?;
    }
    Ok(set)
}

fn list_of(alloc: Global, set: &BTreeSet<Text>) -> Result<NameList, NoMemory>
    requires { IsNameList set.now.keys }
    ensures { IfOk result (λ n. n ≡ set.now.keys) }
{
    let mut names = NameList::new(alloc);
    for name in set.iter() {
        names.add(name.copy(alloc)?)?;
    }
    Ok(names)
}

/// Puts or takes out the name of one path, by what becomes of the path.
fn amend(
    alloc: Global,
    set: &mut BTreeSet<Text>,
    becomes: Option<&Option<Node>>,
    path: &Path,
) -> Result<(), NoMemory>
    requires named { IsNameList set.old.keys }
    ensures ok { OnOk result
        (set.new.keys ≡ amended (option_copied becomes.entry) (last_of path.now) set.old.keys) }
    ensures named { OnOk result (IsNameList set.new.keys) }
{
    let _text = path.text();
    let (Some(node), Some(name)) = (becomes, path.last()) else {
        return Ok(());
    };
    let name = Text::from_slice(alloc, name)?;
    match node {
        Some(_) => {
            set.insert(name)?;
        }
        None => {
            set.remove(&name);
        }
    }
    Ok(())
}

fn amend_all(
    alloc: Global,
    set: &mut BTreeSet<Text>,
    changes: &Delta,
    paths: Iter<'_, Path>,
) -> Result<(), NoMemory>
    requires named { IsNameList set.old.keys }
    ensures ok { OnOk result (set.new.keys ≡ amended_all changes.now paths.entry set.old.keys) }
    ensures named { OnOk result (IsNameList set.new.keys) }
{
    for path in paths {
        amend(alloc, set, changes.get(path), path)?;
    }
    Ok(())
}

/// The names of a directory with the children that the changes put there, and without those that
/// they took.
pub(crate) fn with_own(
    alloc: Global,
    changes: &Delta,
    dir: &Path,
    names: NameList,
) -> Result<NameList, NoMemory>
    ensures { IfOk result (λ n. n ≡ with_own changes.now dir.now names) }
{
    let Some(paths) = changes.under(dir) else {
        return Ok(names);
    };
    let mut set = name_set(alloc, names.names())?;
    amend_all(alloc, &mut set, changes, paths)?;
    list_of(alloc, &set)
}
