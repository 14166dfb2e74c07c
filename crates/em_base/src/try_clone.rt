//! Copies for which memory may run out.
ghost use Rattle.std.specs.Prelude.{◌≡◌, IfOk};

use crate::construct::Construct;
use crate::memory::NoMemory;
use crate::place::Place;
use crate::text::Text;
use std::alloc::Global;

/// A value that can be copied where memory suffices.
pub trait TryClone {
    /// An equal value.
    fn try_clone(&self, alloc: Global) -> Result<Self, NoMemory>
        ensures { IfOk result (λ c. c ≡ self.now) };
}

impl TryClone for Text {
    fn try_clone(&self, alloc: Global) -> Result<Text, NoMemory> {
        self.copy(alloc)
    }
}

impl TryClone for Place {
    fn try_clone(&self, alloc: Global) -> Result<Place, NoMemory> {
        self.copy(alloc)
    }
}

impl TryClone for Construct {
    fn try_clone(&self, alloc: Global) -> Result<Construct, NoMemory> {
        self.copy(alloc)
    }
}
