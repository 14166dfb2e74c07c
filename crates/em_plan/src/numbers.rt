//! The numbers of one name's jobs.
ghost use Rattle.std.specs.Prelude.{◌≡◌, ◌==◌, ◌++◌, [], ◌∷◌, nat_eq, length, IfOk};
ghost use Rattle.std.specs.Cmp.Lexicographic.{pointwise, nat_list_eq_equiv};
ghost use Rattle.std.specs.Cmp.{partial_equiv_from_equiv};

use em_base::{NoMemory, TryClone};
use std::alloc::Global;
use std::marker::Model;
use std::slice;

/// One number in its place, others in a list.
#[derive(Debug, Drop)]
enum NumberList {
    One(u32),
    Many(Vec<u32>),
}

/// The numbers of a name's jobs, which contracts see as a list. Only the jobs of several
/// double-colon rules are several; one number alone takes no memory of its own.
#[derive(Debug, Drop)]
pub struct Numbers {
    held: NumberList,
}

impl Model for Numbers {
    ghost use Rattle.std.specs.Prelude.{List, ℕ};
    ghost use Rattle.em_plan.specs.Numbers.{held_numbers};

    ghost Value = { List ℕ };

    ghost view = { λ n. held_numbers n.held };
}

/// A list of one number.
fn alone(alloc: Global, number: u32) -> Result<Vec<u32>, NoMemory>
    ensures { IfOk result (λ v. v.items ≡ number ∷ []) }
{
    let mut numbers = Vec::new(alloc);
    numbers.push(number)?;
    Ok(numbers)
}

impl Numbers {
    /// No number.
    pub fn new(alloc: Global) -> Numbers
        ensures { result ≡ [] }
    {
        Numbers {
            held: NumberList::Many(Vec::new(alloc)),
        }
    }

    /// One number.
    pub fn one(number: u32) -> Numbers
        ensures { result ≡ number ∷ [] }
    {
        Numbers {
            held: NumberList::One(number),
        }
    }

    /// The numbers in order.
    pub fn items(&self) -> &[u32]
        ensures { result.now ≡ self.now }
    {
        match &self.held {
            NumberList::One(number) => slice::from_ref(number),
            NumberList::Many(numbers) => numbers.as_slice(),
        }
    }

    /// How many numbers there are.
    pub fn len(&self) -> usize
        ensures { result ≡ length self.now }
    {
        self.items().len()
    }

    /// Whether there is none.
    pub fn is_empty(&self) -> bool
        ensures { result ≡ length self.now == 0 }
    {
        self.len() == 0
    }

    /// The numbers with one more.
    pub(crate) fn with(self, alloc: Global, number: u32) -> Result<Numbers, NoMemory>
        ensures { IfOk result (λ n. n ≡ self ++ number ∷ []) }
    {
        if self.is_empty() {
            return Ok(Numbers::one(number));
        }
        let mut numbers = match self.held {
            NumberList::One(first) => alone(alloc, first)?,
            NumberList::Many(numbers) => numbers,
        };
        numbers.push(number)?;
        Ok(Numbers {
            held: NumberList::Many(numbers),
        })
    }

    /// An equal list.
    pub fn copy(&self, alloc: Global) -> Result<Numbers, NoMemory>
        ensures { IfOk result (λ n. n ≡ self.now) }
    {
        let held = match &self.held {
            NumberList::One(number) => NumberList::One(*number),
            NumberList::Many(numbers) => NumberList::Many(Vec::from_slice(
                alloc,
                numbers.as_slice(),
            )?),
        };
        Ok(Numbers { held })
    }
}

impl TryClone for Numbers {
    fn try_clone(&self, alloc: Global) -> Result<Numbers, NoMemory> {
        self.copy(alloc)
    }
}

impl PartialEq for Numbers {
    ghost eq = { pointwise nat_eq };

    ghost laws = { partial_equiv_from_equiv nat_list_eq_equiv };

    fn eq(&self, other: &Self) -> bool {
        self.items() == other.items()
    }
}

impl Eq for Numbers {
    ghost laws = { nat_list_eq_equiv };
}
