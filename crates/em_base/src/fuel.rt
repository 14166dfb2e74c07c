//! Fuel: what a job may still use.
ghost use Rattle.std.specs.Prelude.{◌≡◌, ◌+◌, ◌<◌, ◌↔◌, IsErr, OnOk, OnErr};

use std::marker::Model;
use thiserror::Error;

/// Fewer units were left than were asked for.
#[derive(Clone, Copy, Debug, PartialEq, Eq, Error)]
#[error("fuel spent")]
pub struct Spent;

/// A number of units that only falls. Contracts see the units that are left.
#[derive(Debug, Drop)]
pub struct Fuel {
    units: u64,
}

impl Model for Fuel {
    ghost use Rattle.std.specs.Prelude.{ℕ};

    ghost Value = { ℕ };

    ghost view = { λ f. f.units };
}

impl Fuel {
    /// Fuel of so many units.
    pub fn new(units: u64) -> Fuel
        ensures { result ≡ units }
    {
        Fuel { units }
    }

    /// The units that are left.
    pub fn left(&self) -> u64
        ensures { result ≡ self.now }
    {
        self.units
    }

    /// Takes n units. `Spent` comes exactly where fewer than n are left, and then nothing is taken.
    pub fn spend(&mut self, n: u64) -> Result<(), Spent>
        ensures spent { IsErr result ↔ (self.old < n) }
        ensures ok { OnOk result (self.new + n ≡ self.old) }
        ensures err { OnErr result (self.new ≡ self.old) }
    {
        if self.units < n {
            return Err(Spent);
        }
        self.units -= n;
        Ok(())
    }
}
