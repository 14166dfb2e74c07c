//! Marking in the chains what a post changes: all that takes memory comes first, and is undone
//! where it fails.
ghost use Rattle.std.specs.Prelude.{◌≡◌, ◌&&◌, ℕ, List, IsSome, IfOk, OnOk, OnErr, is_some, option_copied, not, true, false, if◌then◌else◌, option_map, T, min, ◌-◌, ◌^◌};
ghost use Rattle.std.specs.Ordering.{nat_cmp, eq_by_cmp};
ghost use Rattle.std.specs.Cmp.Lexicographic.{slice_cmp};
ghost use Rattle.std.specs.FinMap as map;
ghost use Rattle.std.specs.FinMap.{find, is_sorted};
ghost use Rattle.std.specs.BTreeMap as tree;
ghost use Rattle.em_chain.specs.Chains.{without};
ghost use Rattle.em_chain.specs.Lines.{chain_at};
ghost use Rattle.em_chain.specs.Marks.{names, keeps, written, dropped, dropped_by, cut_at, Roomed};
ghost use Rattle.em_chain.specs.Floors.{emptied, is_live};
ghost use Rattle.std.specs.List.{filter, sum_by};
ghost use Rattle.std.specs.List.Sorted.{IsStrictlySortedBy};
ghost use Rattle.std.specs.Map.{keys_of};

use crate::lines::PathChains;
use crate::post::Post;
use em_base::NoMemory;
use em_path::Path;
use em_tree::{Delta, Node};
use std::alloc::Global;
use std::collections::BTreeMap;
use std::mem;

/// What a path becomes.
pub(crate) type Change = (Path, Option<Node>);

/// Copies of the delta's changes, in order.
pub(crate) fn changes_of(alloc: Global, d: &Delta) -> Result<Vec<Change>, NoMemory>
    ensures { IfOk result (λ v. v.items ≡ map.entries d.now) }
{
    let mut changes = Vec::new(alloc);
    for (path, becomes) in d.changes() {
        changes.push((path.copy()?, copy_of(becomes)?))?;
    }
    Ok(changes)
}

fn copy_of(becomes: &Option<Node>) -> Result<Option<Node>, NoMemory>
    ensures { IfOk result (λ n. n ≡ becomes.now) }
{
    match becomes {
        Some(node) => Ok(Some(node.copy()?)),
        None => Ok(None),
    }
}

/// Sees that the job has a pair in the chain of each path.
fn make_room(lines: &mut PathChains, changes: &[Change], job: u32) -> Result<(), NoMemory>
    ensures roomed { (q : List ℕ) → Roomed job (chain_at lines.old q) (chain_at lines.new q) }
    ensures others { (q : List ℕ) → names changes.now q ≡ false
        → chain_at lines.new q ≡ chain_at lines.old q }
    ensures room { OnOk result ((q : List ℕ) → names changes.now q ≡ true
        → IsSome (find nat_cmp job (chain_at lines.new q))) }
{
    for change in changes {
        lines.make_place(&change.0, job)?;
    }
    Ok(())
}

/// Sees that the job, which has posted what is given, has a pair in the chain of each path of its
/// next delta.
pub(crate) fn stage(
    lines: &mut PathChains,
    changes: &[Change],
    d: &Delta,
    old: Option<&Delta>,
    job: u32,
) -> Result<(), NoMemory>
    requires same { changes.now ≡ map.entries d.now }
    requires posted { (q : List ℕ) → is_some (find nat_cmp job (chain_at lines.old q))
        ≡ keeps (option_copied old) q }
    requires sorted { (q : List ℕ) → T (is_sorted nat_cmp (chain_at lines.old q)) }
    ensures roomed { OnOk result ((q : List ℕ)
        → Roomed job (chain_at lines.old q) (chain_at lines.new q)) }
    ensures others { OnOk result ((q : List ℕ) → names changes.now q ≡ false
        → chain_at lines.new q ≡ chain_at lines.old q) }
    ensures room { OnOk result ((q : List ℕ) → names changes.now q ≡ true
        → IsSome (find nat_cmp job (chain_at lines.new q))) }
    ensures err { OnErr result ((q : List ℕ) → chain_at lines.new q ≡ chain_at lines.old q) }
{
    match make_room(lines, changes, job) {
        Ok(()) => Ok(()),
        Err(e) => {
            drop_stale(lines, d, old, job);
            Err(e)
        }
    }
}

/// The job makes each path, in whose chain it has a pair, what is given.
fn write_all(lines: &mut PathChains, changes: Vec<Change>, job: u32)
    requires { (q : List ℕ) → names changes.items q ≡ true
        → IsSome (find nat_cmp job (chain_at lines.old q)) }
    ensures { (q : List ℕ) → chain_at lines.new q
        ≡ written job q changes.items (chain_at lines.old q) }
{
    for (path, becomes) in changes {
        lines.write(&path, job, becomes);
    }
}

/// Takes the job out of the chains of the paths that a delta names, but for those that another one
/// does.
pub(crate) fn drop_stale(lines: &mut PathChains, d: &Delta, keep: Option<&Delta>, job: u32)
    ensures { (q : List ℕ) → chain_at lines.new q
        ≡ dropped job (option_copied keep.entry) q (map.entries d.now) (chain_at lines.old q) }
{
    for (path, _) in d.changes() {
        drop_one(lines, path, keep, job);
    }
}

fn drop_one(lines: &mut PathChains, p: &Path, keep: Option<&Delta>, job: u32)
    ensures { (q : List ℕ) → chain_at lines.new q
        ≡ (if eq_by_cmp (slice_cmp nat_cmp) q p.now && not (keeps (option_copied keep.entry) p.now)
        then without job (chain_at lines.old q) else chain_at lines.old q) }
{
    if is_kept(keep, p) {
        return;
    }
    lines.erase(p, job);
}

fn is_kept(keep: Option<&Delta>, p: &Path) -> bool
    ensures { result ≡ keeps (option_copied keep.entry) p.now }
{
    match keep {
        Some(d) => d.get(p).is_some(),
        None => false,
    }
}

/// What a job has posted before is taken out where its next delta doesn't name it, once that one is
/// written.
pub(crate) fn commit(
    lines: &mut PathChains,
    changes: Vec<Change>,
    old: Option<Post>,
    keep: Option<&Delta>,
    job: u32,
)
    requires { (q : List ℕ) → names changes.items q ≡ true
        → IsSome (find nat_cmp job (chain_at lines.old q)) }
    ensures { (q : List ℕ) → chain_at lines.new q
        ≡ dropped_by job (option_copied keep.entry) q old
        (written job q changes.items (chain_at lines.old q)) }
{
    write_all(lines, changes, job);
    drop_old(lines, &old, keep, job);
    drop(old);
}

/// Takes what the job has posted before out of the chains, but for the paths that another delta
/// names.
pub(crate) fn drop_old(lines: &mut PathChains, old: &Option<Post>, keep: Option<&Delta>, job: u32)
    ensures { (q : List ℕ) → chain_at lines.new q
        ≡ dropped_by job (option_copied keep.entry) q old.now (chain_at lines.old q) }
{
    match old {
        Some(post) => drop_stale(lines, &post.delta, keep, job),
        None => {}
    }
}

/// What the job has posted.
pub(crate) fn delta_of(posts: &BTreeMap<u32, Post>, job: u32) -> Option<&Delta>
    ensures { option_copied result
        ≡ option_map (λ post. post.delta) (tree.get nat_cmp posts.now job) }
{
    match posts.get(&job) {
        Some(post) => Some(&post.delta),
        None => None,
    }
}

/// The chains of the paths that a delta names begin with the job, which has a pair there, or behind
/// it.
pub(crate) fn cut_all(lines: &mut PathChains, d: &Delta, job: u32)
    requires { (q : List ℕ) → names (map.entries d.now) q ≡ true
        → IsSome (find nat_cmp job (chain_at lines.old q)) }
    ensures { (q : List ℕ) → chain_at lines.new q
        ≡ cut_at job q (map.entries d.now) (chain_at lines.old q) }
{
    for (path, _) in d.changes() {
        lines.cut(path, job);
    }
}

/// Takes out the changes that a job has posted, and leaves its outcome.
pub(crate) fn take_delta(posts: &mut BTreeMap<u32, Post>, alloc: Global, job: u32) -> Option<Delta>
    ensures delta { result ≡ option_map (λ post. post.delta)
        (map.get (map.from_entries {R = nat_cmp} posts.old.entries) job) }
    ensures left { (k : ℕ) → map.get (map.from_entries {R = nat_cmp} posts.new.entries) k
        ≡ (if eq_by_cmp nat_cmp k job
        then option_map emptied (map.get (map.from_entries {R = nat_cmp} posts.old.entries) k)
        else map.get (map.from_entries {R = nat_cmp} posts.old.entries) k) }
    ensures sorted { IsStrictlySortedBy nat_cmp (keys_of posts.old.entries)
        → IsStrictlySortedBy nat_cmp (keys_of posts.new.entries) }
{
    match posts.get_mut(&job) {
        Some(post) => Some(mem::replace(&mut post.delta, Delta::new(alloc))),
        None => None,
    }
}

/// How many changes the jobs from the floor on have posted; 2^64 - 1 where that is less. Steps for
/// each post.
pub(crate) fn count_live(posts: &BTreeMap<u32, Post>, floor: u32) -> u64
    ensures { result ≡ min (sum_by (λ e. map.len e.1.delta)
        (filter (λ e. is_live floor e.0) posts.now.entries)) (2 ^ 64 - 1) }
{
    let mut count: u64 = 0;
    for (job, post) in posts.iter() {
        if *job >= floor {
            count = count.saturating_add(post.delta.len() as u64);
        }
    }
    count
}
