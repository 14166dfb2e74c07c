//! A sequence of values.
ghost use Rattle.std.specs.Prelude.{◌≡◌, ◌==◌, ◌++◌, [], ◌∷◌, length, slice_get, option_copied, IfOk, OnOk, OnErr};

use crate::memory::NoMemory;
use crate::try_clone::TryClone;
use std::alloc::Global;
use std::marker::Model;

/// A `Vec` that contracts see as the list of its items, without where they lie.
#[derive(Debug, Drop)]
pub struct Seq<T> {
    held: Vec<T>,
}

impl<T> Model for Seq<T> {
    ghost use Rattle.std.specs.Prelude.{List};
    ghost use Rattle.std.specs.Coded.{coded_list};

    ghost Value = { List T };

    ghost coded = { coded_list T.code };

    ghost view = { λ s. s.held.items };
}

impl<T> Seq<T> {
    /// The empty sequence.
    pub fn new(alloc: Global) -> Seq<T>
        ensures { result ≡ [] }
    {
        Seq {
            held: Vec::new(alloc),
        }
    }

    /// The sequence of these items, and takes no memory.
    pub fn from_vec(items: Vec<T>) -> Seq<T>
        ensures { result ≡ items.items }
    {
        Seq { held: items }
    }

    /// The items, and takes no memory.
    pub fn into_vec(self) -> Vec<T>
        ensures { result.items ≡ self }
    {
        let Seq { held } = self;
        held
    }

    /// The items.
    pub fn items(&self) -> &[T]
        ensures { result.now ≡ self.now }
    {
        self.held.as_slice()
    }

    /// How many items there are.
    pub fn len(&self) -> usize
        ensures { result ≡ length self.now }
    {
        self.held.len()
    }

    /// Whether there is none.
    pub fn is_empty(&self) -> bool
        ensures { result ≡ length self.now == 0 }
    {
        self.held.is_empty()
    }

    /// The i-th item, counted from 0; `None` exactly where there is none.
    pub fn get(&self, i: usize) -> Option<&T>
        ensures { option_copied result ≡ slice_get self.now i }
    {
        self.held.get(i)
    }
}

impl<T: TryClone + Drop> Seq<T> {
    /// An equal sequence.
    pub fn copy(&self, alloc: Global) -> Result<Seq<T>, NoMemory>
        ensures { IfOk result (λ c. c ≡ self.now) }
    {
        let mut held = Vec::with_capacity(alloc, self.len())?;
        for item in self.items() {
            held.push(item.try_clone(alloc)?)?;
        }
        Ok(Seq { held })
    }
}

impl<T: Drop> Seq<T> {
    /// Appends an item.
    pub fn push(&mut self, item: T) -> Result<(), NoMemory>
        ensures ok { OnOk result (self.new ≡ self.old ++ item ∷ []) }
        ensures err { OnErr result (self.new ≡ self.old) }
    {
        self.held.push(item)?;
        Ok(())
    }
}

impl<T: PartialEq> PartialEq for Seq<T> {
    ghost use Rattle.std.specs.Cmp.Lexicographic.{pointwise, lists_per};

    ghost eq = { pointwise T.eq };

    ghost laws = { lists_per T.laws };

    fn eq(&self, other: &Self) -> bool {
        self.items() == other.items()
    }
}

impl<T: Eq> Eq for Seq<T> {
    ghost use Rattle.std.specs.Cmp.Lexicographic.{lists_equiv};

    ghost laws = { lists_equiv T.Eq.laws };
}

impl<T: TryClone + Drop> TryClone for Seq<T> {
    fn try_clone(&self, alloc: Global) -> Result<Seq<T>, NoMemory> {
        self.copy(alloc)
    }
}
