//! Where a function of the parser stops.
ghost use Rattle.std.specs.Prelude.{◌≡◌};
ghost use Rattle.em_token.specs.declared.stop.Stop.TheVariants.{NoMemory};

use em_lexeme::Lexeme;
use std::alloc::{AllocError, AllocFailed};

/// Which fault it is.
#[derive(Clone, Copy, Debug, PartialEq, Eq)]
pub enum Why {
    Unexpected,
    Depth,
    Background,
    Function,
    Positional,
}

/// The fault stands where these lexemes begin, or, where there are none, at the end.
#[derive(Clone, Copy)]
pub enum Stop<'a> {
    Fault(Why, &'a [Lexeme]),
    NoMemory,
}

impl<'a> From<AllocError> for Stop<'a> {
    ghost from_gives = { λ _ e. e ≡ NoMemory };

    fn from(_e: AllocError) -> Stop<'a> {
        Stop::NoMemory
    }
}

impl<'a, T: Drop> From<AllocFailed<T>> for Stop<'a> {
    ghost from_gives = { λ _ e. e ≡ NoMemory };

    fn from(_e: AllocFailed<T>) -> Stop<'a> {
        Stop::NoMemory
    }
}

impl<'a> From<em_base::NoMemory> for Stop<'a> {
    ghost from_gives = { λ _ e. e ≡ NoMemory };

    fn from(_e: em_base::NoMemory) -> Stop<'a> {
        Stop::NoMemory
    }
}
