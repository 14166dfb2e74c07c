//! Why a text function gives no text.
ghost use Rattle.std.specs.Prelude.{◌≡◌};
ghost use Rattle.em_textfn.specs.declared.no.TextfnNo.TheVariants.{NoMemory};

use thiserror::Error;

/// Why a text function gives no text.
#[derive(Clone, Copy, Debug, PartialEq, Eq, Error)]
pub enum TextfnNo {
    /// Too few arguments, or an argument of `word` or `wordlist` that isn't such a number.
    #[error("a bad argument of a function")]
    BadArgument,
    #[error("out of memory")]
    NoMemory,
}

impl From<em_base::NoMemory> for TextfnNo {
    ghost from_gives = { λ _ e. e ≡ NoMemory };

    fn from(_e: em_base::NoMemory) -> TextfnNo {
        TextfnNo::NoMemory
    }
}
