//! Assignments that jobs share.
ghost use Rattle.std.specs.Prelude.{◌≡◌, ◌&&◌, nat_eq, IfOk};
ghost use Rattle.std.specs.Cmp.{partial_equiv_from_equiv, on_equiv, and_equiv};
ghost use Rattle.std.specs.Cmp.Lexicographic.{pointwise, nat_list_eq_equiv, lists_equiv};

use em_base::{NoMemory, Seq, Text};
use std::alloc::Global;
use std::marker::Model;
use std::sync::Arc;

/// Names with the values that a command line assigns them, which jobs share, in any threads.
/// Contracts see the list.
#[derive(Drop)]
pub struct SharedPairs {
    held: Arc<Seq<(Text, Text)>, Global>,
}

impl Model for SharedPairs {
    ghost use Rattle.std.specs.Prelude.{List, ℕ};
    ghost use Rattle.std.specs.Arc.{arc_value};

    ghost Value = { List (List ℕ × List ℕ) };

    ghost view = { λ s. arc_value s.held };
}

impl SharedPairs {
    /// These pairs, to be shared. No byte is copied.
    pub fn new(alloc: Global, pairs: Seq<(Text, Text)>) -> Result<SharedPairs, NoMemory>
        ensures { IfOk result (λ s. s ≡ pairs) }
    {
        let held = Arc::new(alloc, pairs)?;
        Ok(SharedPairs { held })
    }

    /// The same pairs once more. No byte is copied.
    pub fn copy(&self) -> Result<SharedPairs, NoMemory>
        ensures { IfOk result (λ s. s ≡ self.now) }
    {
        let held = Arc::try_clone(&self.held)?;
        Ok(SharedPairs { held })
    }

    /// The pairs, in order.
    pub fn pairs(&self) -> &[(Text, Text)]
        ensures { result.now ≡ self.now }
    {
        self.held.items()
    }
}

impl PartialEq for SharedPairs {
    ghost eq = { pointwise (λ p q. pointwise nat_eq p.0 q.0 && pointwise nat_eq p.1 q.1) };

    ghost laws = { partial_equiv_from_equiv
        (lists_equiv (and_equiv (on_equiv (λ p. p.0) nat_list_eq_equiv)
        (on_equiv (λ p. p.1) nat_list_eq_equiv))) };

    fn eq(&self, other: &Self) -> bool {
        self.pairs() == other.pairs()
    }
}

impl Eq for SharedPairs {
    ghost laws = { lists_equiv
        (and_equiv (on_equiv (λ p. p.0) nat_list_eq_equiv)
        (on_equiv (λ p. p.1) nat_list_eq_equiv)) };
}
