//! A table: values by name.
ghost use Rattle.std.specs.Prelude.{◌≡◌, ◌==◌, None, option_copied, OnOk, OnErr};
ghost use Rattle.std.specs.FinMap as table;

use crate::memory::NoMemory;
use crate::text::Text;
use std::alloc::Global;
use std::collections::HashMap;
use std::marker::Model;

/// Values by name, found by a hash of the name. Contracts see a finite map from texts. A search
/// takes steps for each byte of the name, and as many more as names share its hash, which are few
/// unless they were chosen for it.
#[derive(Drop)]
pub struct Table<V> {
    held: HashMap<Vec<u8>, V>,
}

impl<V> Model for Table<V> {
    ghost use Rattle.std.specs.Prelude.{map};
    ghost use Rattle.std.specs.FinMap as table;
    ghost use Rattle.std.specs.Ordering.{nat_cmp};
    ghost use Rattle.std.specs.Cmp.Lexicographic.{slice_cmp};
    ghost use Rattle.std.specs.Coded.{coded_ℕ, coded_list};

    ghost Value = { table.FinMap (slice_cmp nat_cmp) V };

    ghost coded = { table.code (coded_list coded_ℕ) V.code };

    ghost view = { λ t. table.from_entries (map (λ e. (e.0.items, e.1)) t.held.entries) };
}

impl<V> Table<V> {
    /// The table without names.
    pub fn new(alloc: Global) -> Table<V>
        ensures { result ≡ table.empty }
    {
        Table {
            held: HashMap::new(alloc),
        }
    }

    /// The name's value; `None` exactly where the name isn't there.
    pub fn get(&self, name: &[u8]) -> Option<&V>
        ensures { option_copied result ≡ table.get self.now name.now }
    {
        self.held.get(name)
    }

    /// How many names there are.
    pub fn len(&self) -> usize
        ensures { result ≡ table.len self.now }
    {
        self.held.len()
    }

    /// Whether there is none.
    pub fn is_empty(&self) -> bool
        ensures { result ≡ table.len self.now == 0 }
    {
        self.len() == 0
    }
}

impl<V: Drop> Table<V> {
    /// Gives the name the value. Only for a new name can memory run out, and then nothing changes.
    pub fn insert(&mut self, name: Text, value: V) -> Result<(), NoMemory>
        ensures ok { OnOk result (self.new ≡ table.insert self.old name value) }
        ensures err { OnErr result (self.new ≡ self.old) }
        ensures absent { OnErr result (table.get self.old name ≡ None) }
    {
        self.held.insert(name.into_vec(), value)?;
        Ok(())
    }

    /// Takes the name out, and gives its value; `None` exactly where the name isn't there, and then
    /// nothing changes.
    pub fn remove(&mut self, name: &[u8]) -> Option<V>
        ensures value { result ≡ table.get self.old name.now }
        ensures rest { self.new ≡ table.remove self.old name.now }
    {
        self.held.remove(name)
    }
}
