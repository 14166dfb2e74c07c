//! The names of a directory.
ghost use Rattle.std.specs.Prelude.{◌≡◌, ◌↔◌, ◌++◌, [], ◌∷◌, IsTrue, IfOk, IfSome, OnOk, OnErr, filter_map, nat_eq};
ghost use Rattle.std.specs.Cmp.{partial_equiv_from_equiv};
ghost use Rattle.std.specs.Ordering.{nat_cmp};
ghost use Rattle.std.specs.Cmp.Lexicographic.{slice_cmp, pointwise, nat_list_eq_equiv, lists_equiv};
ghost use Rattle.std.specs.declared.cmp.Ordering.TheVariants.{Less};
ghost use Rattle.em_path.specs.Paths.{IsComponent, last_of};
ghost use Rattle.em_tree.specs.Names.{IsNameList, last_name};

use em_base::{NoMemory, Text};
use em_path::Path;
use std::alloc::Global;
use std::collections::btree_set::Iter;
use std::marker::Model;

/// Names in strictly rising byte order, each one component. Contracts see the list.
#[derive(Debug, Drop)]
pub struct NameList {
    held: Vec<Text>,
}

impl Model for NameList {
    ghost use Rattle.std.specs.Prelude.{List, ℕ};
    ghost use Rattle.em_tree.specs.Names.{IsNameList};

    ghost Value = { List (List ℕ) };

    ghost view = { λ n. n.held.items };

    ghost invariant = { λ n. IsNameList n.held.items };
}

impl NameList {
    /// No names.
    pub fn new(alloc: Global) -> NameList
        ensures { result ≡ [] }
    {
        NameList {
            held: Vec::new(alloc),
        }
    }

    /// Appends a name, which must be one component and greater than the last name.
    pub fn add(&mut self, name: Text) -> Result<(), NoMemory>
        requires component { IsComponent name }
        requires greater { IfSome (last_name self.old)
            (λ last. slice_cmp nat_cmp last name ≡ Less) }
        ensures ok { OnOk result (self.new ≡ self.old ++ name ∷ []) }
        ensures err { OnErr result (self.new ≡ self.old) }
    {
        self.held.push(name)?;
        Ok(())
    }

    /// The names in order.
    pub fn names(&self) -> &[Text]
        ensures names { result.now ≡ self.now }
        ensures rising { IsNameList self.now }
    {
        self.held.as_slice()
    }

    /// An equal list.
    pub fn copy(&self, alloc: Global) -> Result<NameList, NoMemory>
        ensures { IfOk result (λ n. n ≡ self.now) }
    {
        let mut held = Vec::new(alloc);
        for name in self.held.iter() {
            held.push(name.copy(alloc)?)?;
        }
        Ok(NameList { held })
    }
}

impl PartialEq for NameList {
    ghost eq = { pointwise (pointwise nat_eq) };

    ghost laws = { partial_equiv_from_equiv (lists_equiv nat_list_eq_equiv) };

    fn eq(&self, other: &Self) -> bool {
        self.names() == other.names()
    }
}

impl Eq for NameList {
    ghost laws = { lists_equiv nat_list_eq_equiv };
}

/// The last components of the paths.
pub(crate) fn collect_names(alloc: Global, paths: Iter<'_, Path>) -> Result<NameList, NoMemory>
    requires names { IsNameList (filter_map last_of paths) }
    ensures { IfOk result (λ n. n ≡ filter_map last_of paths.entry) }
{
    let mut names = NameList::new(alloc);
    for path in paths {
        if let Some(name) = path.last() {
            names.add(Text::from_slice(alloc, name)?)?;
        }
    }
    Ok(names)
}

/// Whether the names are the last components of the paths.
pub(crate) fn same_names(paths: Iter<'_, Path>, names: &[Text]) -> bool
    ensures { IsTrue result ↔ (filter_map last_of paths.entry ≡ names.now) }
{
    let mut rest = names;
    for path in paths {
        let Some(name) = path.last() else {
            continue;
        };
        match rest.split_first() {
            Some((first, more)) if first.bytes() == name => rest = more,
            _ => return false,
        }
    }
    rest.is_empty()
}
