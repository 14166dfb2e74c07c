//! A host that tells when something is printed.
use super::gates::is_raised;
use em_host::{Host, HostNo};
use std::alloc::Global;
use std::sync::atomic::{AtomicBool, Ordering};

/// Raises a flag when something is printed, waits for another one, and keeps nothing.
#[derive(Drop)]
pub(super) struct Bell<'a> {
    rung: &'a AtomicBool,
    came: &'a AtomicBool,
    missed: bool,
}

impl<'a> Bell<'a> {
    /// Raises the first flag, and waits for the second.
    pub(super) fn new(rung: &'a AtomicBool, came: &'a AtomicBool) -> Bell<'a> {
        Bell {
            rung,
            came,
            missed: false,
        }
    }

    /// Whether something was printed, and the other flag went up each time.
    pub(super) fn is_met(&self) -> bool {
        self.rung.load(Ordering::SeqCst) && !self.missed
    }
}

impl<'a> Host for Bell<'a> {
    ghost use Rattle.std.specs.Prelude.{None};

    ghost told = { λ _. None };

    ghost faults = { λ _. 0 };

    fn take(&mut self, _alloc: Global, _name: &[u8]) -> Result<Option<Vec<u8>>, HostNo> {
        Ok(None)
    }

    fn replace(&mut self, _alloc: Global, _name: &[u8], _bytes: &[u8]) -> Result<(), HostNo> {
        Ok(())
    }

    fn print(&mut self, _bytes: &[u8]) -> Result<(), HostNo> {
        self.rung.store(true, Ordering::SeqCst);
        self.missed = self.missed || !is_raised(self.came);
        Ok(())
    }
}
