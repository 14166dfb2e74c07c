//! The names of a directory under the changes that were posted.
ghost use Rattle.std.specs.Prelude.{◌≡◌, ℕ, List, Some, IfOk, OnOk, option_copied};
ghost use Rattle.em_path.specs.Paths.{parent_text};
ghost use Rattle.em_tree.specs.Names.{IsNameList};
ghost use Rattle.em_tree.specs.Trees.{Table};
ghost use Rattle.em_chain.specs.Listing.{IsListing, changed_by, names_told};

use em_base::{NoMemory, Text};
use em_path::Path;
use em_tree::{Answer, NameList, Node};
use std::alloc::Global;
use std::collections::BTreeSet;

/// The names as a set.
pub(crate) fn name_set(alloc: Global, names: &[Text]) -> Result<BTreeSet<Text>, NoMemory>
    requires { IsNameList names.now }
    ensures { IfOk result (λ s. s.keys ≡ names.now) }
{
    let mut set = BTreeSet::new(alloc);
    for name in names {
        set.insert(name.copy(alloc)?)?;
    }
    Ok(set)
}

/// The set as a list.
pub(crate) fn list_of(alloc: Global, set: &BTreeSet<Text>) -> Result<NameList, NoMemory>
    requires { IsNameList set.now.keys }
    ensures { IfOk result (λ n. n ≡ set.now.keys) }
{
    let mut names = NameList::new(alloc);
    for name in set.iter() {
        names.add(name.copy(alloc)?)?;
    }
    Ok(names)
}

/// Puts or takes out the name of one path, by what becomes of the path.
pub(crate) fn amend(
    alloc: Global,
    set: &mut BTreeSet<Text>,
    becomes: Option<&Option<Node>>,
    path: &Path,
) -> Result<(), NoMemory>
    requires named { IsNameList set.old.keys }
    ensures named { OnOk result (IsNameList set.new.keys) }
    ensures listing { OnOk result ((p : List ℕ) (t : Table) → parent_text path.now ≡ Some p
        → IsListing p t set.old.keys
        → IsListing p (changed_by (option_copied becomes.entry) path.now t) set.new.keys) }
{
    let _text = path.text();
    let Some(name) = path.last() else {
        return Ok(());
    };
    let Some(node) = becomes else {
        return Ok(());
    };
    let name = Text::from_slice(alloc, name)?;
    match node {
        Some(_) => {
            set.insert(name)?;
        }
        None => {
            set.remove(&name);
        }
    }
    Ok(())
}

/// The names that were answered; `None` where none were.
pub(crate) fn listed(answer: Answer) -> Option<NameList>
    ensures { result ≡ names_told answer }
{
    match answer {
        Answer::Names(names) => names,
        _ => None,
    }
}
