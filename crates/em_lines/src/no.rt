//! Why a makefile has no lines.
ghost use Rattle.std.specs.Prelude.{◌≡◌};
ghost use Rattle.em_lines.specs.declared.no.LinesNo.TheVariants.{NoMemory};

use em_base::Place;
use thiserror::Error;

/// Why the lines of a makefile can't be told.
#[derive(Debug, Drop, PartialEq, Eq, Error)]
pub enum LinesNo {
    /// The logical line that begins at this place is longer than 1,048,576 bytes.
    #[error("a line is too long")]
    TooLong(Place),
    #[error("out of memory")]
    NoMemory,
}

impl From<em_base::NoMemory> for LinesNo {
    ghost from_gives = { λ _ e. e ≡ NoMemory };

    fn from(_e: em_base::NoMemory) -> LinesNo {
        LinesNo::NoMemory
    }
}
