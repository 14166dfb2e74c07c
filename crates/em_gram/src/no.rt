//! Why a line has no tree.
ghost use Rattle.std.specs.Prelude.{◌≡◌};
ghost use Rattle.em_gram.specs.declared.no.GramNo.TheVariants.{NoMemory};

use em_base::Construct;
use thiserror::Error;

/// Why a line is no script. Places are offsets of bytes in the line; the leftmost fault counts.
#[derive(Debug, Drop, PartialEq, Eq, Error)]
pub enum GramNo {
    /// No line of the grammar goes on with what stands there, or, at the line's length, none ends
    /// there.
    #[error("syntax error at byte {0}")]
    Unexpected(usize),
    /// The quote, `${`, `$(` or backquote that opens there isn't closed.
    #[error("unclosed at byte {0}")]
    Unclosed(usize),
    /// The construct that stands there isn't supported.
    #[error("refused at byte {1}")]
    Refused(Construct, usize),
    #[error("out of memory")]
    NoMemory,
}

impl From<em_base::NoMemory> for GramNo {
    ghost from_gives = { λ _ e. e ≡ NoMemory };

    fn from(_e: em_base::NoMemory) -> GramNo {
        GramNo::NoMemory
    }
}
