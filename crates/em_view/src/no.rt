//! Why a desk refuses.
ghost use Rattle.std.specs.Prelude.{◌≡◌};
ghost use Rattle.em_view.specs.declared.no.DeskNo.TheVariants.{NoMemory, Spent};

use std::alloc::{AllocError, AllocFailed};
use thiserror::Error;

/// Why an operation on a file is refused. Of several the first that the operation lists counts.
#[derive(Clone, Copy, Debug, PartialEq, Eq, Error)]
pub enum FileNo {
    #[error("absent")]
    Absent,
    #[error("no parent")]
    NoParent,
    #[error("not a directory")]
    NotDir,
    #[error("is a directory")]
    IsDir,
    #[error("exists")]
    Exists,
    #[error("not empty")]
    NotEmpty,
    /// More than 16,777,216 bytes.
    #[error("too big")]
    TooBig,
    #[error("root")]
    Root,
    /// More than 40 would be followed.
    #[error("too many links")]
    TooManyLinks,
    /// What a link says, with what stands behind it in the name, is no path.
    #[error("bad path")]
    LinkPath,
}

/// Why a desk's call gives nothing.
#[derive(Clone, Copy, Debug, PartialEq, Eq, Error)]
pub enum DeskNo {
    /// The operation is refused; no fuel was taken.
    #[error("{0}")]
    File(FileNo),
    /// The fuel doesn't suffice.
    #[error("fuel spent")]
    Spent,
    #[error("out of memory")]
    NoMemory,
}

impl From<em_base::Spent> for DeskNo {
    ghost from_gives = { λ _ e. e ≡ Spent };

    fn from(_e: em_base::Spent) -> DeskNo {
        DeskNo::Spent
    }
}

impl From<em_base::NoMemory> for DeskNo {
    ghost from_gives = { λ _ e. e ≡ NoMemory };

    fn from(_e: em_base::NoMemory) -> DeskNo {
        DeskNo::NoMemory
    }
}

impl From<AllocError> for DeskNo {
    ghost from_gives = { λ _ e. e ≡ NoMemory };

    fn from(_e: AllocError) -> DeskNo {
        DeskNo::NoMemory
    }
}

impl<T: Drop> From<AllocFailed<T>> for DeskNo {
    ghost from_gives = { λ _ e. e ≡ NoMemory };

    fn from(_e: AllocFailed<T>) -> DeskNo {
        DeskNo::NoMemory
    }
}
