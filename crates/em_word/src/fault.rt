//! Why a word has no expansion.
ghost use Rattle.std.specs.Prelude.{◌≡◌};
ghost use Rattle.em_word.specs.declared.fault.WordFault.TheVariants.{NoMemory, Spent};
ghost use Rattle.em_word.specs.Ends.{of_desk};

use em_base::{Construct, Text};
use em_view::DeskNo;
use std::alloc::{AllocError, AllocFailed};
use thiserror::Error;

/// Why a word has no expansion.
#[derive(Debug, Drop, PartialEq, Eq, Error)]
pub enum WordFault {
    /// `${name?word}` of a name that is unset: this line, `emake: sh: name: word`, is to be
    /// written, and the shell ends with status 1.
    #[error("a parameter is unset")]
    Unset(Text),
    /// It has an expansion that isn't supported.
    #[error("refused")]
    Refused(Construct),
    /// The fuel doesn't suffice.
    #[error("fuel spent")]
    Spent,
    #[error("out of memory")]
    NoMemory,
}

impl From<em_base::Spent> for WordFault {
    ghost from_gives = { λ _ e. e ≡ Spent };

    fn from(_e: em_base::Spent) -> WordFault {
        WordFault::Spent
    }
}

impl From<em_base::NoMemory> for WordFault {
    ghost from_gives = { λ _ e. e ≡ NoMemory };

    fn from(_e: em_base::NoMemory) -> WordFault {
        WordFault::NoMemory
    }
}

impl From<AllocError> for WordFault {
    ghost from_gives = { λ _ e. e ≡ NoMemory };

    fn from(_e: AllocError) -> WordFault {
        WordFault::NoMemory
    }
}

impl<T: Drop> From<AllocFailed<T>> for WordFault {
    ghost from_gives = { λ _ e. e ≡ NoMemory };

    fn from(_e: AllocFailed<T>) -> WordFault {
        WordFault::NoMemory
    }
}

/// What a desk's refusal is to a word: only for the calls that never refuse an operation.
impl From<DeskNo> for WordFault {
    ghost from_gives = { λ e r. r ≡ of_desk e };

    fn from(e: DeskNo) -> WordFault {
        match e {
            DeskNo::NoMemory => WordFault::NoMemory,
            DeskNo::Spent => WordFault::Spent,
            DeskNo::File(_) => WordFault::Spent,
        }
    }
}
