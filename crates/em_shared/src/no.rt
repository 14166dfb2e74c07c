//! Why a call on a shared board did nothing.
ghost use Rattle.std.specs.Prelude.{◌≡◌};
ghost use Rattle.em_shared.specs.declared.no.SettleNo.TheVariants as no;

use em_run::{Run, Spec};
use thiserror::Error;

/// A run that wasn't published.
#[derive(Drop)]
pub enum Held<S: Spec> {
    /// Memory ran out.
    Memory(Run<S>),
    /// No worker has its job.
    Phase(Run<S>),
}

/// Why a job wasn't settled.
#[derive(Debug, Drop, PartialEq, Eq, Error)]
pub enum SettleNo {
    /// It isn't the next one, or the committer doesn't have it.
    #[error("not to be settled now")]
    Phase,
    #[error("out of memory")]
    NoMemory,
}

impl From<em_base::NoMemory> for SettleNo {
    ghost from_gives = { λ _ e. e ≡ no.NoMemory };

    fn from(_e: em_base::NoMemory) -> SettleNo {
        SettleNo::NoMemory
    }
}
