//! Why a nest refuses.
ghost use Rattle.std.specs.Prelude.{◌≡◌};
ghost use Rattle.em_cond.specs.declared.no.CondNo.TheVariants.{NoMemory};

use thiserror::Error;

/// Why a line of a conditional doesn't fit.
#[derive(Clone, Copy, Debug, PartialEq, Eq, Error)]
pub enum CondNo {
    /// `else` or `endif` where no conditional is open, or `else` behind a plain `else`.
    #[error("extraneous conditional")]
    Unbalanced,
    #[error("out of memory")]
    NoMemory,
}

impl From<em_base::NoMemory> for CondNo {
    ghost from_gives = { λ _ e. e ≡ NoMemory };

    fn from(_e: em_base::NoMemory) -> CondNo {
        CondNo::NoMemory
    }
}
