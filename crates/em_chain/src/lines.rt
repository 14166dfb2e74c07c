//! The chains of all paths that posts name.
ghost use Rattle.std.specs.Prelude.{◌≡◌, ◌≢◌, ℕ, List, [], ◌∷◌, Some, None, IsSome, IfOk, OnOk, OnErr, option_copied, unwrap_or, if◌then◌else◌, ◌==◌, false, length, min, ◌-◌, ◌^◌};
ghost use Rattle.std.specs.Ordering.{nat_cmp, eq_by_cmp};
ghost use Rattle.std.specs.Cmp.Lexicographic.{slice_cmp};
ghost use Rattle.std.specs.FinMap as map;
ghost use Rattle.std.specs.FinMap.{find, put};
ghost use Rattle.em_path.specs.Paths.{parent_text};
ghost use Rattle.em_tree.specs.Names.{children_of};
ghost use Rattle.em_chain.specs.Chains.{from_job, roomed, without};
ghost use Rattle.em_chain.specs.Lines.{chain_at, merged_in};

use crate::chain::Chain;
use crate::index::{Children, list, parent_of, unlist};
use em_base::NoMemory;
use em_path::Path;
use em_tree::Node;
use std::alloc::Global;
use std::collections::BTreeMap;
use std::collections::btree_set::Iter;
use std::marker::Model;

/// The chain of a path, and the path's parent, which the root has none of.
#[derive(Drop)]
pub(crate) struct PathChain {
    above: Option<Path>,
    chain: Chain,
}

/// The chains that aren't empty, by their paths, with an index from each directory to those right
/// under it. Contracts see the finite map. Each call takes steps for the logarithms of how many
/// paths there are and of how many pairs their chains have, and `make_place` and `erase` also for
/// each pair on the nearer side of the job's.
#[derive(Drop)]
pub(crate) struct PathChains {
    alloc: Global,
    held: BTreeMap<Path, PathChain>,
    children: Children,
}

impl Model for PathChains {
    ghost use Rattle.std.specs.Ordering.{nat_cmp};
    ghost use Rattle.std.specs.Cmp.Lexicographic.{slice_cmp};
    ghost use Rattle.std.specs.List.Sorted.{IsStrictlySortedBy};
    ghost use Rattle.std.specs.Map.{keys_of};
    ghost use Rattle.std.specs.Coded.{coded_ℕ, coded_list};
    ghost use Rattle.std.specs.FinMap as map;
    ghost use Rattle.em_chain.specs.contracts.lines.PathChain as line;
    ghost use Rattle.em_chain.specs.Lines.{LineTable, IsLines};

    ghost Value = { LineTable };

    ghost coded = { map.code (coded_list coded_ℕ) line.the_row.coded };

    ghost view = { λ t. map.from_entries t.held.entries };

    ghost invariant = { λ t. IsStrictlySortedBy (slice_cmp nat_cmp) (keys_of t.held.entries)
        × IsLines t.children (map.from_entries t.held.entries) };
}

impl PathChains {
    /// No chains.
    pub(crate) fn new(alloc: Global) -> PathChains
        ensures { result ≡ map.empty }
    {
        PathChains {
            alloc,
            held: BTreeMap::new(alloc),
            children: BTreeMap::new(alloc),
        }
    }

    /// The chain of a path; `None` where it is empty.
    pub(crate) fn chain(&self, p: &Path) -> Option<&Chain>
        ensures { unwrap_or (option_copied result) [] ≡ chain_at self.now p.now }
    {
        match self.held.get(p) {
            Some(line) => Some(&line.chain),
            None => None,
        }
    }

    /// The paths right under a path whose chains aren't empty; `None` only where there is none.
    pub(crate) fn under(&self, p: &Path) -> Option<Iter<'_, Path>>
        ensures { unwrap_or result [] ≡ children_of self.now p.now }
    {
        match self.children.get(p) {
            Some(paths) => Some(paths.iter()),
            None => None,
        }
    }

    /// Sees that the job has a pair in the chain of a path.
    pub(crate) fn make_place(&mut self, p: &Path, job: u32) -> Result<(), NoMemory>
        ensures ok { OnOk result ((q : List ℕ) → chain_at self.new q
            ≡ (if eq_by_cmp (slice_cmp nat_cmp) q p.now then roomed job (chain_at self.old q)
            else chain_at self.old q)) }
        ensures err { OnErr result ((q : List ℕ) → chain_at self.new q ≡ chain_at self.old q) }
    {
        if self.held.get(p).is_some() {
            self.grow(p, job)
        } else {
            self.add(p, job)
        }
    }

    fn grow(&mut self, p: &Path, job: u32) -> Result<(), NoMemory>
        requires { IsSome (map.get self.old p.now) }
        ensures ok { OnOk result ((q : List ℕ) → chain_at self.new q
            ≡ (if eq_by_cmp (slice_cmp nat_cmp) q p.now then roomed job (chain_at self.old q)
            else chain_at self.old q)) }
        ensures err { OnErr result ((q : List ℕ) → chain_at self.new q ≡ chain_at self.old q) }
    {
        match self.held.get_mut(p) {
            Some(line) => {
                line.chain.make_place(job)?;
                Ok(())
            }
            None => unreachable!(),
        }
    }

    fn add(&mut self, p: &Path, job: u32) -> Result<(), NoMemory>
        requires { map.get self.old p.now ≡ None }
        ensures ok { OnOk result ((q : List ℕ) → chain_at self.new q
            ≡ (if eq_by_cmp (slice_cmp nat_cmp) q p.now then (job, None) ∷ []
            else chain_at self.old q)) }
        ensures err { OnErr result (self.new ≡ self.old) }
    {
        let path = p.copy()?;
        let above = parent_of(self.alloc, p)?;
        let chain = Chain::one(self.alloc, job)?;
        list(&mut self.children, self.alloc, &above, p)?;
        match self.held.insert(path, PathChain { above, chain }) {
            Ok(_) => Ok(()),
            Err(failed) => {
                unlist(&mut self.children, &failed.value.1.above, p);
                Err(NoMemory)
            }
        }
    }

    /// The job, which has a pair in the chain of a path, makes the path this.
    pub(crate) fn write(&mut self, p: &Path, job: u32, becomes: Option<Node>)
        requires { IsSome (find nat_cmp job (chain_at self.old p.now)) }
        ensures { (q : List ℕ) → chain_at self.new q
            ≡ (if eq_by_cmp (slice_cmp nat_cmp) q p.now
            then put nat_cmp job becomes (chain_at self.old q)
            else chain_at self.old q) }
    {
        match self.held.get_mut(p) {
            Some(line) => line.chain.write(job, becomes),
            None => unreachable!(),
        }
    }

    /// Takes the job's pair out of the chain of a path.
    pub(crate) fn erase(&mut self, p: &Path, job: u32)
        ensures { (q : List ℕ) → chain_at self.new q
            ≡ (if eq_by_cmp (slice_cmp nat_cmp) q p.now then without job (chain_at self.old q)
            else chain_at self.old q) }
    {
        if self.ends_with(p, job) {
            self.take_out(p);
        } else {
            self.shrink(p, job);
        }
    }

    /// Whether the job's pair is all that the chain of a path has.
    fn ends_with(&self, p: &Path, job: u32) -> bool
        ensures { result ≡ length (without job (chain_at self.now p.now)) == 0 }
    {
        match self.held.get(p) {
            Some(line) => line.chain.ends_with(job),
            None => true,
        }
    }

    fn take_out(&mut self, p: &Path)
        ensures { (q : List ℕ) → chain_at self.new q
            ≡ (if eq_by_cmp (slice_cmp nat_cmp) q p.now then [] else chain_at self.old q) }
    {
        let Some(line) = self.held.remove(p) else {
            return;
        };
        unlist(&mut self.children, &line.above, p);
    }

    fn shrink(&mut self, p: &Path, job: u32)
        requires { length (without job (chain_at self.old p.now)) == 0 ≡ false }
        ensures { (q : List ℕ) → chain_at self.new q
            ≡ (if eq_by_cmp (slice_cmp nat_cmp) q p.now then without job (chain_at self.old q)
            else chain_at self.old q) }
    {
        match self.held.get_mut(p) {
            Some(line) => line.chain.erase(job),
            None => unreachable!(),
        }
    }

    /// Takes the pairs of the jobs below one, which has a pair there, out of the chain of a path.
    pub(crate) fn cut(&mut self, p: &Path, job: u32)
        requires { IsSome (find nat_cmp job (chain_at self.old p.now)) }
        ensures { (q : List ℕ) → chain_at self.new q
            ≡ (if eq_by_cmp (slice_cmp nat_cmp) q p.now then from_job job (chain_at self.old q)
            else chain_at self.old q) }
    {
        match self.held.get_mut(p) {
            Some(line) => line.chain.cut(job),
            None => unreachable!(),
        }
    }

    /// How many chains begin with a job below the floor; 2^64 - 1 where that is less. Steps for
    /// each chain.
    pub(crate) fn count_below(&self, floor: u32) -> u64
        ensures { result ≡ min (map.len (merged_in floor self.now)) (2 ^ 64 - 1) }
    {
        let mut count: u64 = 0;
        for (_, line) in self.held.iter() {
            if line.chain.begins_below(floor) {
                count = count.saturating_add(1);
            }
        }
        count
    }
}
