//! Why a report is not looked into.
ghost use Rattle.std.specs.Prelude.{◌≡◌};
ghost use Rattle.em_insight.specs.declared.no.InsightNo.TheVariants as no;

use em_base::NoMemory;
use std::alloc::{AllocError, AllocFailed};
use thiserror::Error;

/// Why a report is not looked into. The first that applies counts.
#[derive(Clone, Copy, Debug, PartialEq, Eq, Error)]
pub enum InsightNo {
    /// The line at this place, counted from 0, is the first whose job isn't that number, or that
    /// waits for a job which isn't below it.
    #[error("jobs out of order")]
    Order(usize),
    /// The fuel of all jobs adds up to more than 2^62 units.
    #[error("too much fuel")]
    Sum,
    #[error("out of memory")]
    NoMemory,
}

impl From<NoMemory> for InsightNo {
    ghost from_gives = { λ _ e. e ≡ no.NoMemory };

    fn from(_e: NoMemory) -> InsightNo {
        InsightNo::NoMemory
    }
}

impl From<AllocError> for InsightNo {
    ghost from_gives = { λ _ e. e ≡ no.NoMemory };

    fn from(_e: AllocError) -> InsightNo {
        InsightNo::NoMemory
    }
}

impl<T: Drop> From<AllocFailed<T>> for InsightNo {
    ghost from_gives = { λ _ e. e ≡ no.NoMemory };

    fn from(_e: AllocFailed<T>) -> InsightNo {
        InsightNo::NoMemory
    }
}
