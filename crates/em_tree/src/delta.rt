//! Changes of a tree.
ghost use Rattle.std.specs.Prelude.{◌≡◌, ◌≢◌, ◌⊎◌, [], unwrap_or, IfOk, OnOk, OnErr, length, slice_get, option_copied, option_map, Some, None, is_some};
ghost use Rattle.std.specs.FinMap as map;
ghost use Rattle.em_tree.specs.Names.{children_of};
ghost use Rattle.em_tree.specs.Trees.{link_of};
ghost use Rattle.em_tree.specs.contracts.node.NodePartialEq.TheImpl as nodes;
ghost use Rattle.em_tree.specs.contracts.node.NodeEq.TheImpl.Laws as node_eq_laws;
ghost use Rattle.std.specs.Prelude.{nat_eq, ◌&&◌};
ghost use Rattle.std.specs.Option.{option_eq};
ghost use Rattle.std.specs.Cmp.{partial_equiv_from_equiv, on_equiv, and_equiv};
ghost use Rattle.std.specs.Cmp.Lexicographic.{pointwise, nat_list_eq_equiv, lists_equiv, options_equiv};

use crate::index::{Children, Place, put, take_out};
use crate::map::PathMap;
use crate::node::{Node, raised};
use em_base::NoMemory;
use em_path::Path;
use std::alloc::Global;
use std::collections::btree_map::Iter;
use std::collections::{BTreeMap, btree_set};
use std::marker::Model;

/// What paths become: a node, or absent. Contracts see the finite map; an index beside it has the
/// named paths right under each directory, and a flag is up where one may become a symbolic link.
#[derive(Drop)]
pub struct Delta {
    alloc: Global,
    named: PathMap<Option<Node>>,
    children: Children,
    pub(crate) linked: bool,
}

impl Model for Delta {
    ghost use Rattle.std.specs.Prelude.{ℕ, List, IsSome};
    ghost use Rattle.std.specs.FinMap as map;
    ghost use Rattle.std.specs.Coded.{coded_ℕ, coded_list, coded_option};
    ghost use Rattle.em_path.specs.Paths.{IsPath};
    ghost use Rattle.em_tree.specs.contracts.node.Node as node;
    ghost use Rattle.em_tree.specs.Trees.{Changes};
    ghost use Rattle.em_tree.specs.Index.{IsIndex};
    ghost use Rattle.em_tree.specs.Flags.{IsMark};

    ghost Value = { Changes };

    ghost coded = { map.code (coded_list coded_ℕ) (coded_option node.the_row.coded) };

    ghost view = { λ d. d.named };

    ghost invariant = { λ d. IsIndex d.children d.named × IsMark d.linked d.named };
}

/// Whether a path becomes a symbolic link.
fn is_link(n: &Option<Node>) -> bool
    ensures { result ≡ is_some (link_of n.now) }
{
    match n {
        Some(n) => n.is_link(),
        None => false,
    }
}

impl Delta {
    /// No changes.
    pub fn new(alloc: Global) -> Delta
        ensures { result ≡ map.empty }
    {
        Delta {
            alloc,
            named: PathMap::new(alloc),
            children: BTreeMap::new(alloc),
            linked: false,
        }
    }

    /// What a path becomes; `None` exactly where it isn't named.
    pub fn get(&self, p: &Path) -> Option<&Option<Node>>
        ensures { option_copied result ≡ map.get self.now p.now }
    {
        self.named.get(p)
    }

    /// How many paths are named.
    pub fn len(&self) -> usize
        ensures { result ≡ map.len self.now }
    {
        self.named.len()
    }

    /// The i-th named path, from 0, in byte order, with what it becomes; `None` exactly where there
    /// are not so many. It costs i steps.
    pub fn at(&self, i: usize) -> Option<(&Path, &Option<Node>)>
        ensures { option_map (λ c. (c.0.now, c.1.now)) result ≡ slice_get (map.entries self.now) i }
    {
        self.named.at(i)
    }

    /// The named paths in byte order, each with what it becomes.
    pub fn changes(&self) -> Iter<'_, Path, Option<Node>>
        ensures { result ≡ map.entries self.now }
    {
        self.named.iter()
    }

    /// The named paths right under a path, in byte order; `None` only where there is none.
    pub fn under(&self, p: &Path) -> Option<btree_set::Iter<'_, Path>>
        ensures { unwrap_or result [] ≡ children_of self.now p.now }
    {
        match self.children.get(p) {
            Some(paths) => Some(paths.iter()),
            None => None,
        }
    }

    /// Makes a path a node, or absent for `None`. Only a path that isn't named yet can fail.
    pub fn set(&mut self, p: Path, n: Option<Node>) -> Result<(), NoMemory>
        ensures ok { OnOk result (self.new ≡ map.insert self.old p n) }
        ensures err { OnErr result (self.new ≡ self.old) }
        ensures absent { OnErr result (map.get self.old p ≡ None) }
    {
        let linked = raised(self.linked, is_link(&n));
        self.linked = linked;
        put(&mut self.named, &mut self.children, self.alloc, p, n)
    }

    fn unset(&mut self, place: &Place)
        ensures { self.new ≡ map.remove self.old place.now.path }
    {
        take_out(&mut self.named, &mut self.children, place);
    }

    /// Makes two paths nodes or absent, or neither where memory runs out. Only a path that isn't
    /// named yet can fail.
    pub fn set_both(
        &mut self,
        p: Path,
        n: Option<Node>,
        q: Path,
        m: Option<Node>,
    ) -> Result<(), NoMemory>
        requires other { p ≢ q }
        ensures ok { OnOk result (self.new ≡ map.insert (map.insert self.old p n) q m) }
        ensures err { OnErr result (self.new ≡ self.old) }
        ensures absent { OnErr result ((map.get self.old p ≡ None) ⊎ (map.get self.old q ≡ None)) }
    {
        if self.get(&p).is_some() {
            self.set(q, m)?;
            return match self.set(p, n) {
                Ok(()) => Ok(()),
                Err(_) => unreachable!(),
            };
        }
        let place = Place::new(self.alloc, &p)?;
        self.set(p, n)?;
        match self.set(q, m) {
            Ok(()) => Ok(()),
            Err(e) => {
                self.unset(&place);
                Err(e)
            }
        }
    }

    /// An equal delta.
    pub fn copy(&self) -> Result<Delta, NoMemory>
        ensures { IfOk result (λ d. d ≡ self.now) }
    {
        Ok(Delta {
            alloc: self.alloc,
            named: self.named.clone()?,
            children: self.children.clone()?,
            linked: self.linked,
        })
    }
}

impl PartialEq for Delta {
    ghost eq = { λ d e. pointwise
        (λ p q. pointwise nat_eq p.0 q.0 && option_eq nodes.ghosts.eq p.1 q.1)
        (map.entries d) (map.entries e) };

    ghost laws = { partial_equiv_from_equiv
        (on_equiv map.entries
        (lists_equiv (and_equiv (on_equiv (λ p. p.0) nat_list_eq_equiv)
        (on_equiv (λ p. p.1) (options_equiv node_eq_laws.laws-law))))) };

    fn eq(&self, other: &Self) -> bool {
        self.named == other.named
    }
}

impl Eq for Delta {
    ghost laws = { on_equiv map.entries
        (lists_equiv (and_equiv (on_equiv (λ p. p.0) nat_list_eq_equiv)
        (on_equiv (λ p. p.1) (options_equiv node_eq_laws.laws-law)))) };
}
