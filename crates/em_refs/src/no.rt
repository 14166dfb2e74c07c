//! Why a text has no parts.
ghost use Rattle.std.specs.Prelude.{◌≡◌};
ghost use Rattle.em_refs.specs.declared.no.RefNo.TheVariants.{NoMemory};

use thiserror::Error;

/// Why a text isn't parted.
#[derive(Clone, Copy, Debug, PartialEq, Eq, Error)]
pub enum RefNo {
    /// The reference whose `$` stands there isn't closed, or that `$` is the text's last byte.
    #[error("unclosed reference at byte {0}")]
    Unclosed(usize),
    #[error("out of memory")]
    NoMemory,
}

impl From<em_base::NoMemory> for RefNo {
    ghost from_gives = { λ _ e. e ≡ NoMemory };

    fn from(_e: em_base::NoMemory) -> RefNo {
        RefNo::NoMemory
    }
}
