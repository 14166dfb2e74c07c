//! Finite maps from paths, in byte order of their texts.
ghost use Rattle.std.specs.Prelude.{◌≡◌, IfOk, OnOk, OnErr, None, nat_eq, ◌&&◌, slice_get, option_copied, option_map};
ghost use Rattle.std.specs.FinMap as map;
ghost use Rattle.std.specs.Cmp.{partial_equiv_from_equiv, on_per, and_per, on_equiv, and_equiv};
ghost use Rattle.std.specs.Cmp.Lexicographic.{pointwise, nat_list_eq_equiv, lists_per, lists_equiv};

use em_path::Path;
use std::alloc::{AllocError, Global};
use std::collections::BTreeMap;
use std::collections::btree_map::Iter;
use std::marker::Model;

/// A finite map from paths. Contracts see it as such.
#[derive(Drop)]
pub(crate) struct PathMap<V> {
    held: BTreeMap<Path, V>,
}

impl<V> Model for PathMap<V> {
    ghost use Rattle.std.specs.Prelude.{ℕ, List};
    ghost use Rattle.std.specs.FinMap as map;
    ghost use Rattle.std.specs.Ordering.{nat_cmp};
    ghost use Rattle.std.specs.Cmp.Lexicographic.{slice_cmp};
    ghost use Rattle.std.specs.Coded.{coded_ℕ, coded_list};
    ghost use Rattle.std.specs.List.Sorted.{IsStrictlySortedBy};
    ghost use Rattle.std.specs.Map.{keys_of};

    ghost Value = { map.FinMap (slice_cmp nat_cmp) V };

    ghost coded = { map.code (coded_list coded_ℕ) V.code };

    ghost view = { λ m. map.from_entries m.held.entries };

    ghost invariant = { λ m. IsStrictlySortedBy (slice_cmp nat_cmp) (keys_of m.held.entries) };
}

impl<V> PathMap<V> {
    pub(crate) fn new(alloc: Global) -> PathMap<V>
        ensures { result ≡ map.empty }
    {
        PathMap {
            held: BTreeMap::new(alloc),
        }
    }

    pub(crate) fn get(&self, p: &Path) -> Option<&V>
        ensures { option_copied result ≡ map.get self.now p.now }
    {
        self.held.get(p)
    }

    pub(crate) fn len(&self) -> usize
        ensures { result ≡ map.len self.now }
    {
        self.held.len()
    }

    /// The i-th entry, in i steps.
    pub(crate) fn at(&self, i: usize) -> Option<(&Path, &V)>
        ensures { option_map (λ e. (e.0.now, e.1.now)) result ≡ slice_get (map.entries self.now) i }
    {
        self.held.iter().nth(i)
    }

    pub(crate) fn iter(&self) -> Iter<'_, Path, V>
        ensures { result ≡ map.entries self.now }
    {
        self.held.iter()
    }
}

impl<V: Drop> PathMap<V> {
    /// Only a new path can fail.
    pub(crate) fn insert(&mut self, p: Path, v: V) -> Result<(), AllocError>
        ensures ok { OnOk result (self.new ≡ map.insert self.old p v) }
        ensures err { OnErr result (self.new ≡ self.old) }
        ensures absent { OnErr result (map.get self.old p ≡ None) }
    {
        self.held.insert(p, v)?;
        Ok(())
    }

    pub(crate) fn remove(&mut self, p: &Path)
        ensures { self.new ≡ map.remove self.old p.now }
    {
        self.held.remove(p);
    }
}

impl<V: Clone> Clone for PathMap<V> {
    ghost is_clone = { λ m copy. ((a b : V) → V.is_clone a b → b ≡ a) → copy ≡ m };

    fn clone(&self) -> Result<PathMap<V>, AllocError> {
        Ok(PathMap {
            held: self.held.clone()?,
        })
    }
}

impl<V: PartialEq> PartialEq for PathMap<V> {
    ghost eq = { λ m n. pointwise
        (λ p q. pointwise nat_eq p.0 q.0 && V.eq p.1 q.1) (map.entries m) (map.entries n) };

    ghost laws = { on_per map.entries
        (lists_per (and_per (on_per (λ p. p.0) (partial_equiv_from_equiv nat_list_eq_equiv))
        (on_per (λ p. p.1) V.laws))) };

    fn eq(&self, other: &Self) -> bool {
        self.held == other.held
    }
}

impl<V: Eq> Eq for PathMap<V> {
    ghost laws = { on_equiv map.entries
        (lists_equiv (and_equiv (on_equiv (λ p. p.0) nat_list_eq_equiv)
        (on_equiv (λ p. p.1) V.Eq.laws))) };
}
