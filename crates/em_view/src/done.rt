//! What a command leaves: its status and what it wrote, or why it has no end.
ghost use Rattle.std.specs.Prelude.{◌≡◌};
ghost use Rattle.em_view.specs.declared.done.ExecNo.TheVariants.{NoMemory, Spent};
ghost use Rattle.em_view.specs.Ends.{of_desk};

use crate::no::DeskNo;
use em_base::{Construct, Seq, Text};
use std::alloc::{AllocError, AllocFailed};
use thiserror::Error;

/// A text that a command wrote at once to one of its streams.
#[derive(Debug, Drop, PartialEq, Eq)]
pub struct Piece {
    /// 1 for the output, 2 for errors.
    pub stream: u8,
    pub text: Text,
}

/// A command that has come to its end.
#[derive(Debug, Drop, PartialEq, Eq)]
pub struct Done {
    /// 0 where it did what it was asked.
    pub status: u8,
    /// What it wrote, in the order of writing.
    pub pieces: Seq<Piece>,
}

/// Why a command doesn't come to its end. The changes that it has made till then stand.
#[derive(Debug, Drop, PartialEq, Eq, Error)]
pub enum ExecNo {
    /// It has a construct, or an option, that isn't supported.
    #[error("refused")]
    Refused(Construct),
    /// The fuel doesn't suffice.
    #[error("fuel spent")]
    Spent,
    #[error("out of memory")]
    NoMemory,
}

impl From<em_base::Spent> for ExecNo {
    ghost from_gives = { λ _ e. e ≡ Spent };

    fn from(_e: em_base::Spent) -> ExecNo {
        ExecNo::Spent
    }
}

impl From<em_base::NoMemory> for ExecNo {
    ghost from_gives = { λ _ e. e ≡ NoMemory };

    fn from(_e: em_base::NoMemory) -> ExecNo {
        ExecNo::NoMemory
    }
}

impl From<AllocError> for ExecNo {
    ghost from_gives = { λ _ e. e ≡ NoMemory };

    fn from(_e: AllocError) -> ExecNo {
        ExecNo::NoMemory
    }
}

impl<T: Drop> From<AllocFailed<T>> for ExecNo {
    ghost from_gives = { λ _ e. e ≡ NoMemory };

    fn from(_e: AllocFailed<T>) -> ExecNo {
        ExecNo::NoMemory
    }
}

/// What a desk's refusal is to a command: only for the calls that never refuse an operation.
impl From<DeskNo> for ExecNo {
    ghost from_gives = { λ e r. r ≡ of_desk e };

    fn from(e: DeskNo) -> ExecNo {
        match e {
            DeskNo::NoMemory => ExecNo::NoMemory,
            DeskNo::Spent => ExecNo::Spent,
            DeskNo::File(_) => ExecNo::Spent,
        }
    }
}
