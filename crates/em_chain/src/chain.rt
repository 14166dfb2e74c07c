//! What jobs make of one path, job by job, and a count of the steps that it takes to search in it.
ghost use Rattle.std.specs.Prelude.{◌≡◌, ◌==◌, ◌+◌, ◌-◌, ◌*◌, ◌^◌, ◌<◌, ◌≤◌, [], ◌∷◌, None, IsSome, is_some, IfOk, IfErr, OnOk, OnErr, length, max, option_map};
ghost use Rattle.std.specs.Ordering.{nat_cmp};
ghost use Rattle.std.specs.FinMap.{find, put};
ghost use Rattle.em_chain.specs.Chains.{IsOpen, counted, from_job, head_below, job_in, job_before, last_below, roomed, without};

use em_base::NoMemory;
use em_tree::Node;
use std::alloc::Global;
use std::collections::VecDeque;
use std::marker::Model;
use std::mem;

/// How many jobs of chains were read. Contracts see the number. Only `Chain` adds to it; at 2^64 -
/// 1 it stays.
#[derive(Drop)]
pub struct Steps {
    count: u64,
}

impl Model for Steps {
    ghost use Rattle.std.specs.Prelude.{ℕ};

    ghost Value = { ℕ };

    ghost view = { λ s. s.count };
}

impl Steps {
    /// No steps.
    pub fn new() -> Steps
        ensures { result ≡ 0 }
    {
        Steps { count: 0 }
    }

    /// How many there were.
    pub fn count(&self) -> u64
        ensures { result ≡ self.now }
    {
        self.count
    }

    fn add_one(&mut self)
        ensures { self.new ≡ counted self.old }
    {
        if self.count < u64::MAX {
            self.count += 1;
        }
    }
}

/// A place in a chain, and the job right before it.
#[derive(Drop)]
struct ChainIndex {
    at: usize,
    before: Option<u32>,
}

/// The jobs whose posts name one path, in rising order, each with what the path becomes. Contracts
/// see the list of the pairs. Pairs come at the back and go from the front, as jobs are posted and
/// settled, so both ends are near.
#[derive(Drop)]
pub struct Chain {
    held: VecDeque<(u32, Option<Node>)>,
}

impl Model for Chain {
    ghost use Rattle.std.specs.Prelude.{T};
    ghost use Rattle.std.specs.Ordering.{nat_cmp};
    ghost use Rattle.std.specs.Coded.{coded_ℕ, coded_list, coded_option, coded×};
    ghost use Rattle.std.specs.FinMap.{is_sorted};
    ghost use Rattle.em_tree.specs.contracts.node.Node as node;
    ghost use Rattle.em_chain.specs.Pairs.{Pairs};

    ghost Value = { Pairs };

    ghost coded = { coded_list (coded× coded_ℕ (coded_option node.the_row.coded)) };

    ghost view = { λ c. c.held.items };

    ghost invariant = { λ c. T (is_sorted nat_cmp c.held.items) };
}

impl Chain {
    /// The chain of one job, where the path is absent so far.
    pub(crate) fn one(alloc: Global, job: u32) -> Result<Chain, NoMemory>
        ensures { IfOk result (λ c. c ≡ (job, None) ∷ []) }
    {
        let mut held = VecDeque::new(alloc);
        held.push_back((job, None))?;
        Ok(Chain { held })
    }

    /// The i-th job, which counts as a step. Nothing else reads a job of a chain.
    pub fn job_at(&self, i: usize, steps: &mut Steps) -> u32
        requires { i < length self.now }
        ensures job { result ≡ job_in self.now i }
        ensures step { steps.new ≡ counted steps.old }
    {
        steps.add_one();
        self.held[i].0
    }

    /// The place of a job between two places, by halves.
    fn search(
        &self,
        job: u32,
        low: usize,
        high: usize,
        before: Option<u32>,
        steps: &mut Steps,
    ) -> ChainIndex
        requires open { IsOpen job self.now low high }
        requires before { before ≡ job_before self.now low }
        ensures at { IsOpen job self.now result.at result.at }
        ensures before { result.before ≡ job_before self.now result.at }
        ensures on { steps.old ≤ steps.new }
        ensures some { low < high → counted steps.old ≤ steps.new }
        ensures few { 2 ^ (steps.new - steps.old) ≤ max 1 (2 * (high - low)) }
    {
        let _held = &self.held;
        if low == high {
            return ChainIndex { at: low, before };
        }
        let middle = low + (high - low) / 2;
        let found = self.job_at(middle, steps);
        if found < job {
            self.search(job, middle + 1, high, Some(found), steps)
        } else {
            self.search(job, low, middle, before, steps)
        }
    }

    /// Where a job stands, or else where it would.
    fn place(&self, job: u32) -> Result<usize, usize>
        ensures found { IfOk result (λ i. IsOpen job self.now i i × (i < length self.now)
            × (job_in self.now i ≡ job)) }
        ensures gap { IfErr result (λ i. IsOpen job self.now i i
            × (i < length self.now → job < job_in self.now i)) }
    {
        let mut steps = Steps::new();
        let spot = self.search(job, 0, self.held.len(), None, &mut steps);
        if spot.at < self.held.len() && self.job_at(spot.at, &mut steps) == job {
            Ok(spot.at)
        } else {
            Err(spot.at)
        }
    }

    /// The last pair whose job is below the given one. Steps for the logarithm of how many pairs
    /// there are.
    pub(crate) fn last(&self, job: u32, steps: &mut Steps) -> Option<(u32, &Option<Node>)>
        ensures last { option_map (λ e. (e.0, e.1.now)) result ≡ last_below job self.now }
        ensures on { steps.old ≤ steps.new }
        ensures some { 0 < length self.now → counted steps.old ≤ steps.new }
        ensures few { 2 ^ (steps.new - steps.old) ≤ 2 * length self.now + 1 }
    {
        let spot = self.search(job, 0, self.held.len(), None, steps);
        match spot.before {
            Some(before) => Some((before, &self.held[spot.at - 1].1)),
            None => None,
        }
    }

    /// Sees that the job has a pair, which says absent where it is new.
    pub(crate) fn make_place(&mut self, job: u32) -> Result<(), NoMemory>
        ensures ok { OnOk result (self.new ≡ roomed job self.old) }
        ensures err { OnErr result (self.new ≡ self.old) }
    {
        if let Err(i) = self.place(job) {
            self.held.insert(i, (job, None))?;
        }
        Ok(())
    }

    /// The job, which has a pair, makes the path this.
    pub(crate) fn write(&mut self, job: u32, becomes: Option<Node>)
        requires { IsSome (find nat_cmp job self.old) }
        ensures { self.new ≡ put nat_cmp job becomes self.old }
    {
        match self.place(job) {
            Ok(i) => drop(mem::replace(&mut self.held[i], (job, becomes))),
            Err(_) => unreachable!(),
        }
    }

    /// Takes out the job's pair.
    pub(crate) fn erase(&mut self, job: u32)
        ensures { self.new ≡ without job self.old }
    {
        if let Ok(i) = self.place(job) {
            drop(self.held.remove(i));
        }
    }

    /// Whether the job's pair is all that there is.
    pub(crate) fn ends_with(&self, job: u32) -> bool
        ensures { result ≡ length (without job self.now) == 0 }
    {
        match self.place(job) {
            Ok(_) => self.held.len() == 1,
            Err(_) => self.held.is_empty(),
        }
    }

    /// How many jobs are below one.
    fn count_below(&self, job: u32) -> usize
        ensures { IsOpen job self.now result result }
    {
        let mut steps = Steps::new();
        self.search(job, 0, self.held.len(), None, &mut steps).at
    }

    /// Takes out the pairs of the jobs below one. Steps for a search, and for each pair that goes.
    pub(crate) fn cut(&mut self, job: u32)
        ensures { self.new ≡ from_job job self.old }
    {
        let below = self.count_below(job);
        for _ in 0..below {
            drop(self.held.pop_front());
        }
    }

    /// Whether the first pair's job is below the given one.
    pub(crate) fn begins_below(&self, job: u32) -> bool
        ensures { result ≡ is_some (head_below job self.now) }
    {
        let mut steps = Steps::new();
        !self.held.is_empty() && self.job_at(0, &mut steps) < job
    }
}
