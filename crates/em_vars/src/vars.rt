//! Variables by name.
ghost use Rattle.std.specs.Prelude.{◌≡◌, ◌==◌, ◌&&◌, Bool, true, false, not, nat_eq, map, length, slice_get, option_copied, option_map, [], Ok, IfOk, OnErr};
ghost use Rattle.std.specs.Cmp.{partial_equiv_from_equiv, on_equiv, and_equiv};
ghost use Rattle.std.specs.Cmp.Lexicographic.{pointwise, nat_list_eq_equiv, lists_equiv};
ghost use Rattle.em_vars.specs.Entries.{AreDistinct, value_of, keeps, rank, with_value, without};
ghost use Rattle.em_vars.specs.declared.var.Origin.{Origin as Source};
ghost use Rattle.em_vars.specs.contracts.var.VarPartialEq.TheImpl as var_eq;
ghost use Rattle.em_vars.specs.contracts.var.VarEq.TheImpl.Laws as var_eq_laws;

use crate::var::{Origin, Var};
use em_base::{NoMemory, Text};
use indexmap::IndexMap;
use indexmap::map::Iter;
use std::alloc::Global;
use std::marker::Model;

/// Variables, each name once, in the order in which the names were first defined. Contracts see the
/// list of the names, each with its variable.
#[derive(Drop)]
pub struct Vars {
    held: IndexMap<Vec<u8>, Var>,
}

impl Model for Vars {
    ghost use Rattle.std.specs.Prelude.{map};
    ghost use Rattle.em_vars.specs.Entries.{Entries, AreDistinct};

    ghost Value = { Entries };

    ghost view = { λ v. map (λ e. (e.0.items, e.1)) v.held.entries };

    ghost invariant = { λ v. AreDistinct (map (λ e. (e.0.items, e.1)) v.held.entries) };
}

/// How origins rank: a variable keeps its value against one of a lower rank.
fn rank_of(origin: Origin) -> u8
    ensures { result ≡ rank origin }
{
    match origin {
        Origin::Default => 0,
        Origin::File => 1,
        Origin::CommandLine => 2,
        Origin::Override => 3,
        Origin::Automatic => 4,
    }
}

/// Whether the variable that is there, if one is, keeps its value against a new one.
fn keeps_value(old: Option<&Var>, new: &Var) -> bool
    ensures { result ≡ keeps (option_copied old.entry) new.now }
{
    match old {
        Some(old) => rank_of(new.origin) < rank_of(old.origin),
        None => false,
    }
}

impl Vars {
    /// No variables. Takes no memory, so that it always answers.
    pub fn new(alloc: Global) -> Result<Vars, NoMemory>
        ensures { result ≡ Ok [] }
    {
        Ok(Vars {
            held: IndexMap::new(alloc),
        })
    }

    /// The variable of this name; `None` exactly where there is none. One search.
    pub fn get(&self, name: &[u8]) -> Option<&Var>
        ensures { option_copied result ≡ value_of self.now name.now }
    {
        self.held.get(name)
    }

    /// How many variables there are. Each name stands once.
    pub fn len(&self) -> usize
        ensures len { result ≡ length self.now }
        ensures names { AreDistinct self.now }
    {
        self.held.len()
    }

    /// Whether there is none.
    pub fn is_empty(&self) -> bool
        ensures { result ≡ length self.now == 0 }
    {
        self.len() == 0
    }

    /// The i-th name, in the order in which they were first defined, with its variable; `None`
    /// exactly where there are no more than i. One step.
    pub fn at(&self, i: usize) -> Option<(&[u8], &Var)>
        ensures { option_map (λ e. (e.0.now, e.1.now)) result ≡ slice_get self.now i }
    {
        let (name, v) = self.held.get_index(i)?;
        Some((name.as_slice(), v))
    }

    /// The names with their variables, in the order in which the names were first defined.
    pub fn iter(&self) -> Iter<'_, Vec<u8>, Var>
        ensures entries { map (λ e. (e.0.items, e.1)) result ≡ self.now }
        ensures names { AreDistinct self.now }
    {
        self.held.iter()
    }

    /// Gives the name the variable, at the place where the name was first defined. The answer is
    /// false exactly where a variable is there whose origin ranks above the new one's; it keeps its
    /// value, and no memory is asked for. From the lowest the ranks are `Default`, `File`,
    /// `CommandLine`, `Override`, `Automatic`.
    pub fn set(&mut self, name: Text, v: Var) -> Result<bool, NoMemory>
        ensures answer { IfOk result (λ b. b ≡ not (keeps (value_of self.old name) v)) }
        ensures refused { keeps (value_of self.old name) v ≡ true → result ≡ Ok false }
        ensures set { IfOk result (λ b. b ≡ true → self.new ≡ with_value self.old name v) }
        ensures kept { IfOk result (λ b. b ≡ false → self.new ≡ self.old) }
        ensures err { OnErr result (self.new ≡ self.old) }
    {
        if keeps_value(self.get(name.bytes()), &v) {
            return Ok(false);
        }
        self.held.insert(name.into_vec(), v)?;
        Ok(true)
    }

    /// Takes the name out, if it is there.
    pub fn undefine(&mut self, name: &[u8])
        ensures { self.new ≡ without self.old name.now }
    {
        self.held.shift_remove(name);
    }

    /// Equal variables.
    pub fn copy(&self, alloc: Global) -> Result<Vars, NoMemory>
        ensures { IfOk result (λ v. v ≡ self.now) }
    {
        let mut copied = Vars::new(alloc)?;
        for (name, v) in self.iter() {
            copied.set(Text::from_slice(alloc, name.as_slice())?, v.copy(alloc)?)?;
        }
        Ok(copied)
    }
}

impl PartialEq for Vars {
    ghost eq = { pointwise (λ p q. pointwise nat_eq p.0 q.0 && var_eq.ghosts.eq p.1 q.1) };

    ghost laws = { partial_equiv_from_equiv
        (lists_equiv (and_equiv (on_equiv (λ p. p.0) nat_list_eq_equiv)
        (on_equiv (λ p. p.1) var_eq_laws.laws-law))) };

    fn eq(&self, other: &Self) -> bool {
        self.held.as_slice() == other.held.as_slice()
    }
}

impl Eq for Vars {
    ghost laws = { lists_equiv
        (and_equiv (on_equiv (λ p. p.0) nat_list_eq_equiv)
        (on_equiv (λ p. p.1) var_eq_laws.laws-law)) };
}
