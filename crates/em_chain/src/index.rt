//! An index from each directory to the paths right under it.
ghost use Rattle.std.specs.Prelude.{◌≡◌, ◌&&◌, ◌||◌, not, ℕ, List, IfOk, OnOk, OnErr};
ghost use Rattle.std.specs.Ordering.{nat_cmp, eq_by_cmp};
ghost use Rattle.std.specs.Cmp.Lexicographic.{slice_cmp};
ghost use Rattle.em_path.specs.Paths.{parent_text};
ghost use Rattle.em_tree.specs.Index.{has_child, is_parent};

use em_base::NoMemory;
use em_path::Path;
use std::alloc::Global;
use std::collections::{BTreeMap, BTreeSet};

/// The paths right under each directory.
pub(crate) type Children = BTreeMap<Path, BTreeSet<Path>>;

/// The parent; `None` for the root alone.
pub(crate) fn parent_of(alloc: Global, path: &Path) -> Result<Option<Path>, NoMemory>
    ensures { IfOk result (λ above. above ≡ parent_text path.now) }
{
    match path.parent(alloc) {
        Ok(above) => Ok(above),
        Err(_) => Err(NoMemory),
    }
}

/// Adds a child.
fn add(children: &mut Children, alloc: Global, parent: Path, child: Path) -> Result<(), NoMemory>
    ensures ok { OnOk result ((p k : List ℕ) → has_child children.new p k
        ≡ (has_child children.old p k
        || (eq_by_cmp (slice_cmp nat_cmp) p parent && eq_by_cmp (slice_cmp nat_cmp) k child))) }
    ensures err { OnErr result ((p k : List ℕ)
        → has_child children.new p k ≡ has_child children.old p k) }
{
    if let Some(paths) = children.get_mut(&parent) {
        paths.insert(child)?;
        return Ok(());
    }
    let mut paths = BTreeSet::new(alloc);
    paths.insert(child)?;
    children.insert(parent, paths)?;
    Ok(())
}

/// Takes a child out, and the parent with its last one.
fn take(children: &mut Children, parent: &Path, child: &Path)
    ensures { (p k : List ℕ) → has_child children.new p k
        ≡ (has_child children.old p k && not (eq_by_cmp (slice_cmp nat_cmp) p parent.now
        && eq_by_cmp (slice_cmp nat_cmp) k child.now)) }
{
    let Some(paths) = children.get_mut(parent) else {
        return;
    };
    paths.remove(child);
    if paths.is_empty() {
        children.remove(parent);
    }
}

/// Lists a path under its parent.
pub(crate) fn list(
    children: &mut Children,
    alloc: Global,
    above: &Option<Path>,
    path: &Path,
) -> Result<(), NoMemory>
    requires { above.now ≡ parent_text path.now }
    ensures ok { OnOk result ((p k : List ℕ) → has_child children.new p k
        ≡ (has_child children.old p k
        || (is_parent p path.now && eq_by_cmp (slice_cmp nat_cmp) k path.now))) }
    ensures err { OnErr result ((p k : List ℕ)
        → has_child children.new p k ≡ has_child children.old p k) }
{
    if let Some(parent) = above {
        add(children, alloc, parent.copy()?, path.copy()?)?;
    }
    Ok(())
}

/// Takes a path from its parent's list.
pub(crate) fn unlist(children: &mut Children, above: &Option<Path>, path: &Path)
    requires { above.now ≡ parent_text path.now }
    ensures { (p k : List ℕ) → has_child children.new p k
        ≡ (has_child children.old p k
        && not (is_parent p path.now && eq_by_cmp (slice_cmp nat_cmp) k path.now)) }
{
    if let Some(parent) = above {
        take(children, parent, path);
    }
}
