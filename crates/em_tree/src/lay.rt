//! Laying a delta over nodes: all that may fail comes first, and is undone where it does.
ghost use Rattle.std.specs.Prelude.{◌≡◌, ℕ, List, Some, None, IsSome, IfOk, OnOk, OnErr, T, false};
ghost use Rattle.std.specs.Ordering.{nat_cmp, eq_by_cmp};
ghost use Rattle.std.specs.Cmp.Lexicographic.{slice_cmp};
ghost use Rattle.std.specs.FinMap as map;
ghost use Rattle.std.specs.FinMap.{find, is_sorted};
ghost use Rattle.em_tree.specs.Index.{IsIndex};
ghost use Rattle.em_tree.specs.Trees.{changed, changed_all, laid_over};
ghost use Rattle.em_tree.specs.Steps.{changes_of, removals, HasRoom};

use crate::delta::Delta;
use crate::index::{Children, Place, put_new, take_out};
use crate::map::PathMap;
use crate::node::Node;
use em_base::NoMemory;
use em_path::Path;
use std::alloc::Global;

/// What one path becomes.
#[derive(Drop)]
pub(crate) struct Step {
    place: Place,
    becomes: Option<Node>,
}

/// The delta's changes in order, with copies of all that they need.
fn stage(alloc: Global, d: &Delta) -> Result<Vec<Step>, NoMemory>
    ensures { IfOk result (λ v. changes_of v.items ≡ map.entries d.now) }
{
    let mut steps = Vec::new(alloc);
    for (p, becomes) in d.changes() {
        steps.push(step_of(alloc, p, becomes)?)?;
    }
    Ok(steps)
}

/// The step that makes a path what is given.
fn step_of(alloc: Global, p: &Path, becomes: &Option<Node>) -> Result<Step, NoMemory>
    ensures { IfOk result (λ s. (s.place.path ≡ p.now) × (s.becomes ≡ becomes.now)) }
{
    Ok(Step {
        place: Place::new(alloc, p)?,
        becomes: match becomes {
            Some(n) => Some(n.copy()?),
            None => None,
        },
    })
}

/// Sees that a node stands at the step's path where it becomes one. A path that it adds goes to
/// `added`.
fn add_room<'a>(
    nodes: &mut PathMap<Node>,
    children: &mut Children,
    alloc: Global,
    added: &mut Vec<&'a Place>,
    step: &'a Step,
) -> Result<(), NoMemory>
    requires index { IsIndex children.old nodes.old }
    ensures index { IsIndex children.new nodes.new }
    ensures undo { changed_all (removals added.new.items) nodes.new
        ≡ changed_all (removals added.old.items) nodes.old }
    ensures room { OnOk result
        (IsSome step.now.becomes → IsSome (map.get nodes.new step.now.place.path)) }
    ensures others { (q : List ℕ) → eq_by_cmp (slice_cmp nat_cmp) q step.now.place.path ≡ false
        → map.get nodes.new q ≡ map.get nodes.old q }
    ensures stays { (q : List ℕ) → IsSome (map.get nodes.old q) → IsSome (map.get nodes.new q) }
{
    if step.becomes.is_none() {
        return Ok(());
    }
    if nodes.get(&step.place.path).is_some() {
        return Ok(());
    }
    put_new(nodes, children, alloc, &step.place, Node::Dir { stamp: 0 })?;
    match added.push(&step.place) {
        Ok(()) => Ok(()),
        Err(_) => {
            take_out(nodes, children, &step.place);
            Err(NoMemory)
        }
    }
}

/// Takes out what was added.
fn undo(nodes: &mut PathMap<Node>, children: &mut Children, added: Vec<&Place>)
    requires index { IsIndex children.old nodes.old }
    ensures index { IsIndex children.new nodes.new }
    ensures nodes { nodes.new ≡ changed_all (removals added.entry.items) nodes.old }
{
    let mut rest = added;
    while let Some(place) = rest.pop() {
        take_out(nodes, children, place);
    }
}

/// Makes the step. Where the path becomes a node it has one already.
fn apply_one(nodes: &mut PathMap<Node>, children: &mut Children, step: Step)
    requires index { IsIndex children.old nodes.old }
    requires room { IsSome step.becomes → IsSome (map.get nodes.old step.place.path) }
    ensures index { IsIndex children.new nodes.new }
    ensures nodes { nodes.new ≡ changed nodes.old step.place.path step.becomes }
{
    let Step { place, becomes } = step;
    match becomes {
        None => take_out(nodes, children, &place),
        Some(n) => {
            let Place { path, above: _ } = place;
            match nodes.insert(path, n) {
                Ok(()) => {}
                Err(_) => unreachable!(),
            }
        }
    }
}

/// Sees that a node stands at each path that becomes one.
fn make_room<'a>(
    nodes: &mut PathMap<Node>,
    children: &mut Children,
    alloc: Global,
    added: &mut Vec<&'a Place>,
    steps: &'a [Step],
) -> Result<(), NoMemory>
    requires index { IsIndex children.old nodes.old }
    ensures index { IsIndex children.new nodes.new }
    ensures undo { changed_all (removals added.new.items) nodes.new
        ≡ changed_all (removals added.old.items) nodes.old }
    ensures room { OnOk result (HasRoom (changes_of steps.now) nodes.new) }
    ensures others { (q : List ℕ) → find (slice_cmp nat_cmp) q (changes_of steps.now) ≡ None
        → map.get nodes.new q ≡ map.get nodes.old q }
{
    for step in steps {
        add_room(nodes, children, alloc, added, step)?;
    }
    Ok(())
}

/// Makes the steps, the last one first.
fn apply(nodes: &mut PathMap<Node>, children: &mut Children, steps: Vec<Step>)
    requires index { IsIndex children.old nodes.old }
    requires sorted { T (is_sorted (slice_cmp nat_cmp) (changes_of steps.items)) }
    requires room { HasRoom (changes_of steps.items) nodes.old }
    ensures index { IsIndex children.new nodes.new }
    ensures nodes { nodes.new ≡ changed_all (changes_of steps.items) nodes.old }
{
    let mut rest = steps;
    while let Some(step) = rest.pop() {
        apply_one(nodes, children, step);
    }
}

/// Lays a delta. After an error both are as before, as far as can be asked.
pub(crate) fn lay_on(
    nodes: &mut PathMap<Node>,
    children: &mut Children,
    alloc: Global,
    d: &Delta,
) -> Result<(), NoMemory>
    requires index { IsIndex children.old nodes.old }
    ensures index { IsIndex children.new nodes.new }
    ensures ok { OnOk result (nodes.new ≡ laid_over d.now nodes.old) }
    ensures err { OnErr result (nodes.new ≡ nodes.old) }
{
    let steps = stage(alloc, d)?;
    let mut added = Vec::new(alloc);
    match make_room(nodes, children, alloc, &mut added, steps.as_slice()) {
        Ok(()) => {
            drop(added);
            apply(nodes, children, steps);
            Ok(())
        }
        Err(e) => {
            undo(nodes, children, added);
            Err(e)
        }
    }
}
