//! Trees.
ghost use Rattle.std.specs.Prelude.{◌≡◌, ◌≤◌, [], ◌∷◌, IfOk, OnOk, OnErr, Some, None, IsSome, length, option_copied, option_map, slice_get, unwrap_or, IsTrue, ◌↔◌};
ghost use Rattle.em_tree.specs.Flags.{HasNone};
ghost use Rattle.em_tree.specs.Names.{children_of, names_of};
ghost use Rattle.std.specs.FinMap as map;
ghost use Rattle.em_path.specs.Paths.{root_text};
ghost use Rattle.em_tree.specs.Trees.{IsTree, kind_of, stamp_of, content_of, link_of, base_of, laid_over};
ghost use Rattle.em_tree.specs.declared.node.Node.TheVariants as node;
ghost use Rattle.em_tree.specs.contracts.node.NodePartialEq.TheImpl as nodes;
ghost use Rattle.em_tree.specs.contracts.node.NodePartialEq.TheImpl.Laws as node_laws;
ghost use Rattle.em_tree.specs.contracts.node.NodeEq.TheImpl.Laws as node_eq_laws;
ghost use Rattle.std.specs.Prelude.{nat_eq, ◌&&◌};
ghost use Rattle.std.specs.Cmp.{partial_equiv_from_equiv, on_per, and_per, on_equiv, and_equiv};
ghost use Rattle.std.specs.Cmp.Lexicographic.{pointwise, nat_list_eq_equiv, lists_per, lists_equiv};

use crate::delta::Delta;
use crate::index::{Children, Place, put, put_absent, put_new};
use crate::lay::lay_on;
use crate::link::LinkText;
use crate::map::PathMap;
use crate::names::{NameList, collect_names, same_names};
use crate::node::{Body, Kind, Node, raised};
use em_base::NoMemory;
use em_path::Path;
use std::alloc::Global;
use std::collections::btree_set::Iter;
use std::collections::{BTreeMap, btree_map};
use std::marker::Model;

/// A finite map from paths to nodes in which the root is a directory and the parent of every other
/// path is one. Its nodes stand in byte order of their paths, and an index beside them has the
/// paths right under each directory. A flag beside them is up where a symbolic link may be.
#[derive(Drop)]
pub struct Tree {
    pub(crate) alloc: Global,
    nodes: PathMap<Node>,
    children: Children,
    pub(crate) linked: bool,
}

impl Model for Tree {
    ghost use Rattle.std.specs.Prelude.{ℕ, List};
    ghost use Rattle.std.specs.FinMap as map;
    ghost use Rattle.std.specs.Coded.{coded_ℕ, coded_list};
    ghost use Rattle.em_tree.specs.contracts.node.Node as node;
    ghost use Rattle.em_tree.specs.Trees.{Table, IsTree};
    ghost use Rattle.em_tree.specs.Index.{IsIndex};
    ghost use Rattle.em_tree.specs.Flags.{IsFlag};

    ghost Value = { Table };

    ghost coded = { map.code (coded_list coded_ℕ) node.the_row.coded };

    ghost view = { λ t. t.nodes };

    ghost invariant = { λ t. IsTree t.nodes × (IsIndex t.children t.nodes × IsFlag t.linked t.nodes) };
}

impl Tree {
    /// The tree of a root alone.
    pub fn new(alloc: Global, root_stamp: u64) -> Result<Tree, NoMemory>
        ensures { IfOk result (λ t. t ≡ map.insert map.empty root_text (node.Dir root_stamp)) }
    {
        let mut nodes = PathMap::new(alloc);
        let mut children = BTreeMap::new(alloc);
        let root = Place::new(alloc, &Path::root())?;
        put_new(
            &mut nodes,
            &mut children,
            alloc,
            &root,
            Node::Dir { stamp: root_stamp },
        )?;
        Ok(Tree {
            alloc,
            nodes,
            children,
            linked: false,
        })
    }

    /// The node at a path; `None` exactly where it is absent.
    pub fn get(&self, p: &Path) -> Option<&Node>
        ensures node { option_copied result ≡ map.get self.now p.now }
        ensures tree { IsTree self.now }
    {
        self.nodes.get(p)
    }

    /// The kind of what stands at a path.
    pub fn kind(&self, p: &Path) -> Kind
        ensures kind { result ≡ kind_of (map.get self.now p.now) }
        ensures tree { IsTree self.now }
    {
        match self.get(p) {
            Some(n) => n.kind(),
            None => Kind::Absent,
        }
    }

    /// The stamp of the node at a path; `None` exactly where it is absent.
    pub fn stamp(&self, p: &Path) -> Option<u64>
        ensures stamp { result ≡ stamp_of (map.get self.now p.now) }
        ensures tree { IsTree self.now }
    {
        self.get(p).map(|n| n.stamp())
    }

    /// The bytes of a file; `None` where the path is none.
    pub(crate) fn content(&self, p: &Path) -> Option<&Body>
        ensures { option_copied result ≡ content_of (map.get self.now p.now) }
    {
        match self.get(p) {
            Some(Node::File { body, .. }) => Some(body),
            _ => None,
        }
    }

    /// What the symbolic link at a path says; `None` where the path is none. It costs a search, and
    /// nothing in a tree without links.
    pub fn link(&self, p: &Path) -> Option<&LinkText>
        ensures link { option_copied result ≡ link_of (map.get self.now p.now) }
        ensures tree { IsTree self.now }
    {
        if !self.linked {
            return None;
        }
        match self.get(p) {
            Some(n) => n.link(),
            None => None,
        }
    }

    /// Whether it surely has no symbolic link. It may have none and not say so.
    pub(crate) fn is_bare(&self) -> bool
        ensures { IsTrue result → HasNone self.now }
    {
        !self.linked
    }

    /// The greatest stamp.
    pub fn base(&self) -> u64
        ensures base { result ≡ base_of self.now }
        ensures tree { IsTree self.now }
    {
        let mut base = 0;
        for (_, n) in self.nodes.iter() {
            base = n.stamp().max(base);
        }
        base
    }

    /// How many nodes there are.
    pub fn count(&self) -> usize
        ensures count { result ≡ map.len self.now }
        ensures tree { IsTree self.now }
    {
        self.nodes.len()
    }

    /// The i-th node, from 0, in byte order of the paths; `None` exactly where there are not so
    /// many. It costs i steps.
    pub fn at(&self, i: usize) -> Option<(&Path, &Node)>
        ensures { option_map (λ e. (e.0.now, e.1.now)) result ≡ slice_get (map.entries self.now) i }
    {
        self.nodes.at(i)
    }

    /// The nodes in byte order of their paths.
    pub fn nodes(&self) -> btree_map::Iter<'_, Path, Node>
        ensures { result ≡ map.entries self.now }
    {
        self.nodes.iter()
    }

    /// The paths right under a path, in byte order; `None` only where there is none.
    fn under(&self, p: &Path) -> Option<Iter<'_, Path>>
        ensures children { unwrap_or result [] ≡ children_of self.now p.now }
        ensures tree { IsTree self.now }
    {
        match self.children.get(p) {
            Some(paths) => Some(paths.iter()),
            None => None,
        }
    }

    /// The names of a directory; `None` where the path is none, which always comes.
    pub(crate) fn names(&self, alloc: Global, p: &Path) -> Result<Option<NameList>, NoMemory>
        ensures ok { IfOk result (λ r. r ≡ names_of self.now p.now) }
        ensures err { OnErr result (IsSome (names_of self.now p.now)) }
    {
        if self.kind(p) != Kind::Dir {
            return Ok(None);
        }
        Ok(Some(match self.under(p) {
            Some(paths) => collect_names(alloc, paths)?,
            None => NameList::new(alloc),
        }))
    }

    /// Whether the names of a directory are these.
    pub(crate) fn has_names(&self, p: &Path, names: &Option<NameList>) -> bool
        ensures { IsTrue result ↔ (names_of self.now p.now ≡ names.now) }
    {
        match (self.kind(p), names) {
            (Kind::Dir, Some(list)) => match self.under(p) {
                Some(paths) => same_names(paths, list.names()),
                None => list.names().is_empty(),
            },
            (Kind::Dir, None) => false,
            (_, list) => list.is_none(),
        }
    }

    /// Puts a node at a path. The table with it must be a tree. Only an absent path can fail.
    pub fn set(&mut self, p: Path, n: Node) -> Result<(), NoMemory>
        requires tree { IsTree (map.insert self.old p n) }
        ensures ok { OnOk result (self.new ≡ map.insert self.old p n) }
        ensures err { OnErr result (self.new ≡ self.old) }
        ensures absent { OnErr result (map.get self.old p ≡ None) }
    {
        let linked = raised(self.linked, n.is_link());
        self.linked = linked;
        put(&mut self.nodes, &mut self.children, self.alloc, p, n)
    }

    /// Puts a node at an absent path, in one search less than `set`. The table with it must be a
    /// tree.
    pub fn add(&mut self, p: Path, n: Node) -> Result<(), NoMemory>
        requires absent { map.get self.old p ≡ None }
        requires tree { IsTree (map.insert self.old p n) }
        ensures ok { OnOk result (self.new ≡ map.insert self.old p n) }
        ensures err { OnErr result (self.new ≡ self.old) }
    {
        let linked = raised(self.linked, n.is_link());
        self.linked = linked;
        put_absent(&mut self.nodes, &mut self.children, self.alloc, p, n)
    }

    /// Makes each path that the delta names what it says; the others stay. The table then must be a
    /// tree.
    pub fn lay(&mut self, d: &Delta) -> Result<(), NoMemory>
        requires tree { IsTree (laid_over d.now self.old) }
        ensures ok { OnOk result (self.new ≡ laid_over d.now self.old) }
        ensures err { OnErr result (self.new ≡ self.old) }
    {
        let linked = raised(self.linked, d.linked);
        self.linked = linked;
        lay_on(&mut self.nodes, &mut self.children, self.alloc, d)
    }

    /// An equal tree.
    pub fn copy(&self) -> Result<Tree, NoMemory>
        ensures { IfOk result (λ t. t ≡ self.now) }
    {
        Ok(Tree {
            alloc: self.alloc,
            nodes: self.nodes.clone()?,
            children: self.children.clone()?,
            linked: self.linked,
        })
    }
}

impl PartialEq for Tree {
    ghost eq = { λ s t. pointwise
        (λ p q. pointwise nat_eq p.0 q.0 && nodes.ghosts.eq p.1 q.1)
        (map.entries s) (map.entries t) };

    ghost laws = { on_per map.entries
        (lists_per (and_per (on_per (λ p. p.0) (partial_equiv_from_equiv nat_list_eq_equiv))
        (on_per (λ p. p.1) node_laws.laws-law))) };

    fn eq(&self, other: &Self) -> bool {
        self.nodes == other.nodes
    }
}

impl Eq for Tree {
    ghost laws = { on_equiv map.entries
        (lists_equiv (and_equiv (on_equiv (λ p. p.0) nat_list_eq_equiv)
        (on_equiv (λ p. p.1) node_eq_laws.laws-law))) };
}
