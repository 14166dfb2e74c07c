//! Why a line has no tokens.
ghost use Rattle.std.specs.Prelude.{◌≡◌};
ghost use Rattle.em_lexeme.specs.declared.no.LexNo.TheVariants.{NoMemory};

use em_base::Construct;
use thiserror::Error;

/// Why a line isn't read to its end. Places are offsets of bytes in the line.
#[derive(Debug, Drop, PartialEq, Eq, Error)]
pub enum LexNo {
    /// The quote, `${`, `$(` or backquote that opens there isn't closed.
    #[error("unclosed at byte {0}")]
    Unclosed(usize),
    /// The construct that begins there isn't supported.
    #[error("refused at byte {1}")]
    Refused(Construct, usize),
    #[error("out of memory")]
    NoMemory,
}

impl From<em_base::NoMemory> for LexNo {
    ghost from_gives = { λ _ e. e ≡ NoMemory };

    fn from(_e: em_base::NoMemory) -> LexNo {
        LexNo::NoMemory
    }
}
