//! Flags, the first raised one of which is found at once.
ghost use Rattle.std.specs.Prelude.{◌≡◌, ◌≢◌, ℕ, ◌<◌, ◌≤◌, ◌^◌, Some, IfOk, MatchOption, true, length, slice_get, slice_set};
ghost use Rattle.em_engine.specs.Flags.{IsFirst};

use em_base::NoMemory;
use std::alloc::Global;
use std::marker::Model;

/// Flags in a row, seen as a list. The first raised one is found, and a flag is put, in steps for
/// the logarithm of how many there are, and both take no memory.
///
/// `any` is a full binary tree in a row: node `k` tells whether a flag below it is raised, its
/// halves are the nodes `2 * k` and `2 * k + 1`, and the flags are the nodes from `width` on.
#[derive(Drop)]
pub struct FlagTree {
    levels: u32,
    width: usize,
    any: Vec<bool>,
}

impl Model for FlagTree {
    ghost use Rattle.std.specs.Prelude.{List, Bool, drop};
    ghost use Rattle.em_engine.specs.Flags.{IsTree};

    ghost Value = { List Bool };

    ghost view = { λ f. drop f.width f.any.items };

    ghost invariant = { λ f. IsTree f.levels f.width f.any.items };
}

impl FlagTree {
    /// At least so many flags, none of them raised.
    pub fn new(alloc: Global, count: usize) -> Result<FlagTree, NoMemory>
        requires { count < 2 ^ 32 }
        ensures { IfOk result (λ f. (count ≤ length f) × ((i : ℕ) → slice_get f i ≢ Some true)) }
    {
        let (levels, width) = size_for(count);
        let any = vec![in alloc; false; 2 * width]?;
        Ok(FlagTree { levels, width, any })
    }

    /// The place of the first raised flag; `None` exactly where none is raised.
    pub fn first(&self) -> Option<usize>
        ensures { MatchOption result ((i : ℕ) → slice_get self.now i ≢ Some true)
            (IsFirst self.now) }
    {
        if !self.any[1] {
            return None;
        }
        let mut node = 1;
        for _ in 0..self.levels {
            node = 2 * node;
            if !self.any[node] {
                node += 1;
            }
        }
        Some(node - self.width)
    }

    /// Raises or lowers the flag at a place.
    pub fn put(&mut self, at: usize, raised: bool)
        requires { at < length self.old }
        ensures { self.new ≡ slice_set self.old at raised }
    {
        let mut node = self.width + at;
        self.any[node] = raised;
        while node > 1 {
            node /= 2;
            let low = self.any[2 * node];
            let high = self.any[2 * node + 1];
            self.any[node] = low | high;
        }
    }
}

/// So many levels, with so many flags below them, as there are to be for a count of flags.
fn size_for(count: usize) -> (u32, usize)
    requires { count < 2 ^ 32 }
    ensures reach { count ≤ result.1 }
    ensures wide { result.1 ≡ 2 ^ result.0 }
    ensures few { result.0 ≤ 32 }
{
    let mut width: usize = 1;
    for levels in 0..32 {
        if count <= width {
            return (levels, width);
        }
        width *= 2;
    }
    (32, width)
}
