//! What every host promises.
ghost use Rattle.std.specs.Prelude.{◌≡◌, ℕ, List, Option};
ghost use Rattle.em_host.specs.Outside.{Outside, Tells, Takes, Replaces, Prints, contents};
ghost use Rattle.em_host.specs.Faults.{count_after};

use crate::no::HostNo;
use std::alloc::Global;

/// Files under names, and one output.
///
/// A host over memory tells what it holds and its calls, any other host tells nothing. `faults`
/// counts the calls that answered `Failed`, up to 2^64 - 1, and no other call changes it.
pub trait Host: Drop + Send {
    /// What the host holds, has printed and was called, where it tells that.
    ghost told: { Self → Option Outside };

    /// How many calls have answered `Failed`, up to 2^64 - 1.
    ghost faults: { Self → ℕ };

    /// The bytes of a file, or None where there is no such file.
    fn take(&mut self, alloc: Global, name: &[u8]) -> Result<Option<Vec<u8>>, HostNo>
        ensures told { Tells (Takes name.now (contents result)) (told self.old) (told self.new) }
        ensures faults { faults self.new ≡ count_after result (faults self.old) };

    /// Makes the file these bytes. On Err the files are as before.
    fn replace(&mut self, alloc: Global, name: &[u8], bytes: &[u8]) -> Result<(), HostNo>
        ensures told { Tells (Replaces name.now bytes.now result) (told self.old) (told self.new) }
        ensures faults { faults self.new ≡ count_after result (faults self.old) };

    /// Appends the bytes to the output. On Err a front of them was appended.
    fn print(&mut self, bytes: &[u8]) -> Result<(), HostNo>
        ensures told { Tells (Prints bytes.now result) (told self.old) (told self.new) }
        ensures faults { faults self.new ≡ count_after result (faults self.old) };
}
