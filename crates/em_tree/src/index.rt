//! Nodes by their paths, with an index from each directory to the paths right under it.
ghost use Rattle.std.specs.Prelude.{◌≡◌, ◌&&◌, ◌||◌, not, ℕ, List, None, Some, IfOk, OnOk, OnErr};
ghost use Rattle.std.specs.Ordering.{nat_cmp, eq_by_cmp};
ghost use Rattle.std.specs.Cmp.Lexicographic.{slice_cmp};
ghost use Rattle.std.specs.FinMap as map;
ghost use Rattle.em_path.specs.Paths.{parent_text};
ghost use Rattle.em_tree.specs.Index.{has_child, is_parent, IsIndex};

use crate::map::PathMap;
use em_base::NoMemory;
use em_path::Path;
use std::alloc::Global;
use std::collections::{BTreeMap, BTreeSet};

/// The paths right under each directory.
pub(crate) type Children = BTreeMap<Path, BTreeSet<Path>>;

/// Adds a child.
fn add(children: &mut Children, alloc: Global, parent: Path, child: Path) -> Result<(), NoMemory>
    ensures ok { OnOk result
        ((p k : List ℕ)
        → has_child children.new p k
        ≡ (has_child children.old p k
        || (eq_by_cmp (slice_cmp nat_cmp) p parent
        && eq_by_cmp (slice_cmp nat_cmp) k child))) }
    ensures err { OnErr result
        ((p k : List ℕ) → has_child children.new p k ≡ has_child children.old p k) }
{
    if let Some(paths) = children.get_mut(&parent) {
        paths.insert(child)?;
        return Ok(());
    }
    let mut paths = BTreeSet::new(alloc);
    paths.insert(child)?;
    children.insert(parent, paths)?;
    Ok(())
}

/// Takes a child out.
fn take(children: &mut Children, parent: &Path, child: &Path)
    ensures { (p k : List ℕ)
        → has_child children.new p k
        ≡ (has_child children.old p k
        && not (eq_by_cmp (slice_cmp nat_cmp) p parent.now
        && eq_by_cmp (slice_cmp nat_cmp) k child.now)) }
{
    if let Some(paths) = children.get_mut(parent) {
        paths.remove(child);
    }
}

/// A path with its parent, which the root has none of.
#[derive(Drop)]
pub(crate) struct Place {
    pub(crate) path: Path,
    pub(crate) above: Option<Path>,
    ghost homed: { above ≡ parent_text path },
}

impl Place {
    pub(crate) fn new(alloc: Global, p: &Path) -> Result<Place, NoMemory>
        ensures { IfOk result (λ place. place.path ≡ p.now) }
    {
        Place::of(alloc, p.copy()?)
    }

    /// The path is taken, and not copied.
    fn of(alloc: Global, path: Path) -> Result<Place, NoMemory>
        ensures { IfOk result (λ place. place.path ≡ path) }
    {
        match path.parent(alloc) {
            Ok(above) => Ok(Place { path, above }),
            Err(_) => Err(NoMemory),
        }
    }
}

/// Lists a path under its parent.
fn list(children: &mut Children, alloc: Global, place: &Place) -> Result<(), NoMemory>
    ensures ok { OnOk result
        ((p k : List ℕ)
        → has_child children.new p k
        ≡ (has_child children.old p k
        || (is_parent p place.now.path
        && eq_by_cmp (slice_cmp nat_cmp) k place.now.path))) }
    ensures err { OnErr result
        ((p k : List ℕ) → has_child children.new p k ≡ has_child children.old p k) }
{
    if let Some(parent) = &place.above {
        add(children, alloc, parent.copy()?, place.path.copy()?)?;
    }
    Ok(())
}

/// Takes a path from its parent's list.
fn unlist(children: &mut Children, place: &Place)
    ensures { (p k : List ℕ)
        → has_child children.new p k
        ≡ (has_child children.old p k
        && not (is_parent p place.now.path
        && eq_by_cmp (slice_cmp nat_cmp) k place.now.path)) }
{
    if let Some(parent) = &place.above {
        take(children, parent, &place.path);
    }
}

/// Puts a node at an absent path. After an error both are as before, as far as can be asked.
pub(crate) fn put_new<V: Drop>(
    nodes: &mut PathMap<V>,
    children: &mut Children,
    alloc: Global,
    place: &Place,
    n: V,
) -> Result<(), NoMemory>
    requires index { IsIndex children.old nodes.old }
    requires absent { map.get nodes.old place.now.path ≡ None }
    ensures index { IsIndex children.new nodes.new }
    ensures ok { OnOk result (nodes.new ≡ map.insert nodes.old place.now.path n) }
    ensures err { OnErr result (nodes.new ≡ nodes.old) }
{
    let p = place.path.copy()?;
    list(children, alloc, place)?;
    match nodes.insert(p, n) {
        Ok(()) => Ok(()),
        Err(_) => {
            unlist(children, place);
            Err(NoMemory)
        }
    }
}

/// Takes a path out.
pub(crate) fn take_out<V: Drop>(nodes: &mut PathMap<V>, children: &mut Children, place: &Place)
    requires index { IsIndex children.old nodes.old }
    ensures index { IsIndex children.new nodes.new }
    ensures nodes { nodes.new ≡ map.remove nodes.old place.now.path }
{
    nodes.remove(&place.path);
    unlist(children, place);
}

/// Puts a node at an absent path.
pub(crate) fn put_absent<V: Drop>(
    nodes: &mut PathMap<V>,
    children: &mut Children,
    alloc: Global,
    p: Path,
    n: V,
) -> Result<(), NoMemory>
    requires index { IsIndex children.old nodes.old }
    requires absent { map.get nodes.old p ≡ None }
    ensures index { IsIndex children.new nodes.new }
    ensures ok { OnOk result (nodes.new ≡ map.insert nodes.old p n) }
    ensures err { OnErr result (nodes.new ≡ nodes.old) }
{
    let place = Place::of(alloc, p)?;
    put_new(nodes, children, alloc, &place, n)
}

/// Puts a node at a path. After an error both are as before, as far as can be asked.
pub(crate) fn put<V: Drop>(
    nodes: &mut PathMap<V>,
    children: &mut Children,
    alloc: Global,
    p: Path,
    n: V,
) -> Result<(), NoMemory>
    requires index { IsIndex children.old nodes.old }
    ensures index { IsIndex children.new nodes.new }
    ensures ok { OnOk result (nodes.new ≡ map.insert nodes.old p n) }
    ensures err { OnErr result (nodes.new ≡ nodes.old) }
    ensures absent { OnErr result (map.get nodes.old p ≡ None) }
{
    if nodes.get(&p).is_some() {
        nodes.insert(p, n)?;
        return Ok(());
    }
    put_absent(nodes, children, alloc, p, n)
}
