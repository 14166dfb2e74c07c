//! Why a call on a host failed.
ghost use Rattle.std.specs.Prelude.{◌≡◌};
ghost use Rattle.em_host.specs.declared.no.HostNo.TheVariants as no;

use em_base::NoMemory;
use std::alloc::{AllocError, AllocFailed};
use thiserror::Error;

/// Why a call on a host failed.
#[derive(Clone, Copy, Debug, PartialEq, Eq, Error)]
pub enum HostNo {
    /// The outside failed, and the host has counted it.
    #[error("the host failed")]
    Failed,
    #[error("out of memory")]
    NoMemory,
}

impl From<AllocError> for HostNo {
    ghost from_gives = { λ _ e. e ≡ no.NoMemory };

    fn from(_e: AllocError) -> HostNo {
        HostNo::NoMemory
    }
}

impl<T: Drop> From<AllocFailed<T>> for HostNo {
    ghost from_gives = { λ _ e. e ≡ no.NoMemory };

    fn from(_e: AllocFailed<T>) -> HostNo {
        HostNo::NoMemory
    }
}

impl From<NoMemory> for HostNo {
    ghost from_gives = { λ _ e. e ≡ no.NoMemory };

    fn from(_e: NoMemory) -> HostNo {
        HostNo::NoMemory
    }
}
