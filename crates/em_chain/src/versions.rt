//! A start, and what jobs have posted over it, merged below a floor.
ghost use Rattle.std.specs.Prelude.{◌≡◌, ◌↔◌, ℕ, ◌+◌, ◌-◌, ◌*◌, ◌^◌, ◌<◌, ◌≤◌, min, List, IfOk, OnOk, OnErr, IsTrue, IsSome, Some, length, option_copied, option_map};
ghost use Rattle.std.specs.FinMap as map;
ghost use Rattle.em_tree.specs.declared.node.Kind.TheVariants as kind;
ghost use Rattle.em_tree.specs.Answers.{holds_memory};
ghost use Rattle.std.specs.List.{AllByRecursion};
ghost use Rattle.em_path.specs.Paths.{parent_text};
ghost use Rattle.em_tree.specs.Names.{IsNameList, names_of};
ghost use Rattle.em_tree.specs.Trees.{Table, kind_of, stamp_of, content_of, link_of};
ghost use Rattle.em_chain.specs.Chains.{counted, last_below};
ghost use Rattle.em_chain.specs.Floors.{chain_over, change_over, last_over, table_over, outcome_over, looked_over, entries_of, IsRaised};
ghost use Rattle.em_chain.specs.Listing.{IsListing, changed_at};

use crate::chain::Steps;
use crate::lines::PathChains;
use crate::marks::{
    changes_of, commit, count_live, cut_all, delta_of, drop_old, drop_stale, stage, take_delta,
};
use crate::names::{amend, list_of, listed, name_set};
use crate::post::Post;
use em_base::{NoMemory, Text};
use em_path::Path;
use em_tree::{Answer, Body, Delta, Kind, LinkText, NameList, Node, Outcome, Question, State};
use std::alloc::Global;
use std::collections::btree_set::Iter;
use std::collections::{BTreeMap, BTreeSet};
use std::marker::Model;

/// A starting state, and what jobs have posted over it. A job is answered by the start with the
/// posts of the jobs below it laid over it, in order of number; such a table need not be a tree.
/// Beside the posts stands the chain of each path that they name.
///
/// No job below the floor asks: their posts are merged, and a path keeps the last job that posted
/// it. Contracts see the start, the floor, what is merged, and the posts, of which those below the
/// floor have an outcome alone.
#[derive(Drop)]
pub struct Versions {
    alloc: Global,
    start: State,
    floor: u32,
    posts: BTreeMap<u32, Post>,
    lines: PathChains,
}

impl Model for Versions {
    ghost use Rattle.std.specs.Prelude.{◌≡◌, ℕ, List};
    ghost use Rattle.std.specs.Ordering.{nat_cmp};
    ghost use Rattle.std.specs.List.Sorted.{IsStrictlySortedBy};
    ghost use Rattle.std.specs.Map.{keys_of};
    ghost use Rattle.std.specs.FinMap as map;
    ghost use Rattle.em_chain.specs.Posts.{Floored};
    ghost use Rattle.em_chain.specs.Codes.{floored_code};
    ghost use Rattle.em_chain.specs.Lines.{merged_in, IsHeld};

    ghost Value = { Floored };

    ghost coded = { floored_code };

    ghost view = { λ v. record {
      start = v.start;
      floor = v.floor;
      merged = merged_in v.floor v.lines;
      posts = map.from_entries v.posts.entries;
    } };

    ghost invariant = { λ v. IsStrictlySortedBy nat_cmp (keys_of v.posts.entries)
        × IsHeld v.floor v.lines (map.from_entries v.posts.entries) };
}

impl Versions {
    /// The start, over which nothing is posted.
    pub fn new(alloc: Global, start: State) -> Result<Versions, NoMemory>
        ensures { IfOk result (λ v. v
            ≡ record { start = start; floor = 0; merged = map.empty; posts = map.empty }) }
    {
        Ok(Versions {
            alloc,
            start,
            floor: 0,
            posts: BTreeMap::new(alloc),
            lines: PathChains::new(alloc),
        })
    }

    /// The floor: the posts of the jobs below it are merged.
    pub fn floor(&self) -> u32
        ensures { result ≡ self.now.floor }
    {
        self.floor
    }

    /// How many pairs of a path and a job the chains have; 2^64 - 1 where that is less. Steps for
    /// each path and each post, so it is for measures alone.
    pub fn entries(&self) -> u64
        ensures { result ≡ min (entries_of self.now) (2 ^ 64 - 1) }
    {
        let merged = self.lines.count_below(self.floor);
        merged.saturating_add(count_live(&self.posts, self.floor))
    }

    /// Raises the floor, and takes no memory: of the jobs below it each path keeps the last one
    /// that posted it. Steps for each job between the floors a search in the posts, and for each
    /// path that it posted one in the paths and in the path's chain, and the pairs that go.
    pub fn raise(&mut self, to: u32)
        requires { self.old.floor ≤ to }
        ensures { IsRaised self.old to self.new }
    {
        for job in self.floor..to {
            self.raise_over(job);
        }
    }

    /// Raises the floor by one.
    fn raise_over(&mut self, job: u32)
        requires here { job ≡ self.old.floor }
        requires room { job + 1 < 2 ^ 32 }
        ensures { IsRaised self.old (job + 1) self.new }
    {
        if let Some(delta) = take_delta(&mut self.posts, self.alloc, job) {
            cut_all(&mut self.lines, &delta, job);
        }
        self.floor = job + 1;
    }

    /// Posts what a job changes and how it ended, in place of what it had posted. Steps for the
    /// logarithm of how many jobs have posted, and for each path that its deltas name a few
    /// searches, in the paths and in the path's chain, and the jobs above it there.
    pub fn post(&mut self, job: u32, d: Delta, o: Outcome) -> Result<(), NoMemory>
        requires { self.old.floor ≤ job }
        ensures ok { OnOk result (self.new ≡ record self.old {
          posts = map.insert self.old.posts job (record { delta = d; outcome = o });
        }) }
        ensures err { OnErr result (self.new ≡ self.old) }
    {
        let changes = changes_of(self.alloc, &d)?;
        let old = delta_of(&self.posts, job);
        stage(&mut self.lines, changes.as_slice(), &d, old, job)?;
        let post = Post {
            delta: d,
            outcome: o,
        };
        match self.posts.insert(job, post) {
            Ok(old) => {
                let keep = delta_of(&self.posts, job);
                commit(&mut self.lines, changes, old, keep, job);
                Ok(())
            }
            Err(failed) => {
                let keep = delta_of(&self.posts, job);
                drop_stale(&mut self.lines, &failed.value.1.delta, keep, job);
                drop(failed);
                Err(NoMemory)
            }
        }
    }

    /// Takes back what a job has posted, and takes no memory. Steps as for a post of its delta.
    pub fn withdraw(&mut self, job: u32)
        requires { self.old.floor ≤ job }
        ensures { self.new ≡ record self.old { posts = map.remove self.old.posts job } }
    {
        let old = self.posts.remove(&job);
        drop_old(&mut self.lines, &old, None, job);
        drop(old);
    }

    /// The greatest job below the given one whose post named the path, of those that are merged the
    /// one that the path keeps; `None` exactly where there is none. It reads one job at least where
    /// the path's chain has any, and at most about as many as the logarithm of how many it has;
    /// each is one of the steps.
    pub fn last(&self, job: u32, p: &Path, steps: &mut Steps) -> Option<u32>
        requires { self.now.floor ≤ job }
        ensures last { result ≡ last_over self.now job p.now }
        ensures on { steps.old ≤ steps.new }
        ensures some { 0 < length (chain_over self.now p.now) → counted steps.old ≤ steps.new }
        ensures few { 2 ^ (steps.new - steps.old) ≤ 2 * length (chain_over self.now p.now) + 1 }
    {
        match self.found(job, p, steps) {
            Some((last, _)) => Some(last),
            None => None,
        }
    }

    /// That job, with what it makes the path.
    fn found(&self, job: u32, p: &Path, steps: &mut Steps) -> Option<(u32, &Option<Node>)>
        ensures found { option_map (λ e. (e.0, e.1.now)) result
            ≡ last_below job (chain_over self.now p.now) }
        ensures on { steps.old ≤ steps.new }
        ensures some { 0 < length (chain_over self.now p.now) → counted steps.old ≤ steps.new }
        ensures few { 2 ^ (steps.new - steps.old) ≤ 2 * length (chain_over self.now p.now) + 1 }
    {
        match self.lines.chain(p) {
            Some(chain) => chain.last(job, steps),
            None => None,
        }
    }

    /// What the posts of the jobs below one make a path; `None` where none names it.
    fn change(&self, job: u32, p: &Path) -> Option<&Option<Node>>
        ensures { option_copied result ≡ change_over self.now job p.now }
    {
        let mut steps = Steps::new();
        match self.found(job, p, &mut steps) {
            Some((_, becomes)) => Some(becomes),
            None => None,
        }
    }

    /// What stands at a path under the posts of the jobs below one.
    fn node(&self, job: u32, p: &Path) -> Option<&Node>
        requires { self.now.floor ≤ job }
        ensures { option_copied result ≡ map.get (table_over self.now job) p.now }
    {
        match self.change(job, p) {
            Some(becomes) => becomes.as_ref(),
            None => self.start.tree.get(p),
        }
    }

    /// The kind of what stands there.
    fn kind(&self, job: u32, p: &Path) -> Kind
        requires { self.now.floor ≤ job }
        ensures { result ≡ kind_of (map.get (table_over self.now job) p.now) }
    {
        match self.node(job, p) {
            Some(n) => n.kind(),
            None => Kind::Absent,
        }
    }

    /// Whether a directory stands there.
    fn is_dir(&self, job: u32, p: &Path) -> bool
        requires { self.now.floor ≤ job }
        ensures { IsTrue result ↔ (kind_of (map.get (table_over self.now job) p.now) ≡ kind.Dir) }
    {
        match self.kind(job, p) {
            Kind::Dir => true,
            Kind::File => false,
            Kind::Absent => false,
            Kind::Link => false,
        }
    }

    /// The stamp of the node there; `None` where there is none.
    fn stamp(&self, job: u32, p: &Path) -> Option<u64>
        requires { self.now.floor ≤ job }
        ensures { result ≡ stamp_of (map.get (table_over self.now job) p.now) }
    {
        self.node(job, p).map(|n| n.stamp())
    }

    /// The bytes of the file there; `None` where there is none.
    fn content(&self, job: u32, p: &Path) -> Option<&Body>
        requires { self.now.floor ≤ job }
        ensures { option_copied result ≡ content_of (map.get (table_over self.now job) p.now) }
    {
        match self.node(job, p) {
            Some(Node::File { body, .. }) => Some(body),
            _ => None,
        }
    }

    /// What the link there says; `None` where there is none.
    fn link(&self, job: u32, p: &Path) -> Option<&LinkText>
        requires { self.now.floor ≤ job }
        ensures { option_copied result ≡ link_of (map.get (table_over self.now job) p.now) }
    {
        match self.node(job, p) {
            Some(n) => n.link(),
            None => None,
        }
    }

    /// How a job below one ended, by what it posted.
    fn outcome(&self, job: u32, k: u32) -> Option<&Outcome>
        ensures { option_copied result ≡ outcome_over self.now job k }
    {
        if k >= job {
            return None;
        }
        match self.posts.get(&k) {
            Some(post) => Some(&post.outcome),
            None => None,
        }
    }

    /// The names that the start has right under a path.
    fn first_names(&self, p: &Path) -> Result<BTreeSet<Text>, NoMemory>
        ensures { IfOk result (λ s. IsListing p.now self.now.start.tree s.keys) }
    {
        let _text = p.text();
        let _kind = self.start.tree.kind(p);
        match listed(self.start.answer(self.alloc, &Question::Names(p.copy()?))?) {
            Some(list) => Ok(name_set(self.alloc, list.names())?),
            None => Ok(BTreeSet::new(self.alloc)),
        }
    }

    /// Puts in and takes out the names of the paths, as the posts of the jobs below one say.
    fn amend_all(
        &self,
        set: &mut BTreeSet<Text>,
        job: u32,
        paths: Iter<'_, Path>,
    ) -> Result<(), NoMemory>
        requires { IsNameList set.old.keys }
        ensures { OnOk result ((p : List ℕ) (t : Table)
            → AllByRecursion (λ q. parent_text q ≡ Some p) paths.entry
            → IsListing p t set.old.keys
            → IsListing p (changed_at (change_over self.now job) paths.entry t) set.new.keys) }
    {
        for path in paths {
            amend(self.alloc, set, self.change(job, path), path)?;
        }
        Ok(())
    }

    /// Puts in and takes out what the posts of the jobs below one do right under a path: a search
    /// for each name that they touch.
    fn lay_all(&self, set: &mut BTreeSet<Text>, job: u32, p: &Path) -> Result<(), NoMemory>
        requires floor { self.now.floor ≤ job }
        requires listing { IsListing p.now self.now.start.tree set.old.keys }
        ensures { OnOk result (IsListing p.now (table_over self.now job) set.new.keys) }
    {
        let Some(paths) = self.lines.under(p) else {
            return Ok(());
        };
        self.amend_all(set, job, paths)?;
        Ok(())
    }

    /// The names of a directory; `None` where there is none, which always comes.
    fn names(&self, job: u32, p: &Path) -> Result<Option<NameList>, NoMemory>
        requires { self.now.floor ≤ job }
        ensures ok { IfOk result (λ r. r ≡ names_of (table_over self.now job) p.now) }
        ensures err { OnErr result (IsSome (names_of (table_over self.now job) p.now)) }
    {
        let _text = p.text();
        if !self.is_dir(job, p) {
            return Ok(None);
        }
        let mut set = self.first_names(p)?;
        self.lay_all(&mut set, job, p)?;
        Ok(Some(list_of(self.alloc, &set)?))
    }

    /// What a job is answered: by the start with what the jobs below it have posted. An answer that
    /// holds no memory always comes. Steps for a search in the paths and one in the path's chain,
    /// and for names these for each name that posts touch there.
    #[tactic(auto, unfolding(crate::specs::Floors::looked_over))]
    pub fn look(&self, job: u32, q: &Question) -> Result<Answer, NoMemory>
        requires { self.now.floor ≤ job }
        ensures ok { IfOk result (λ a. a ≡ looked_over self.now job q.now) }
        ensures err { OnErr result (IsTrue (holds_memory (looked_over self.now job q.now))) }
    {
        Ok(match q {
            Question::Kind(p) => Answer::Kind(self.kind(job, p)),
            Question::Stamp(p) => Answer::Stamp(self.stamp(job, p)),
            Question::Content(p) => Answer::Content(match self.content(job, p) {
                Some(body) => Some(body.copy()?),
                None => None,
            }),
            Question::Names(p) => Answer::Names(self.names(job, p)?),
            Question::Link(p) => Answer::Link(match self.link(job, p) {
                Some(text) => Some(text.copy()?),
                None => None,
            }),
            Question::Outcome(k) => Answer::Outcome(match self.outcome(job, *k) {
                Some(outcome) => Some(outcome.copy(self.alloc)?),
                None => None,
            }),
        })
    }
}
