//! Why a text is no report's.
ghost use Rattle.std.specs.Prelude.{◌≡◌};
ghost use Rattle.em_report.specs.declared.no.ReportNo.TheVariants as no;

use em_base::NoMemory;
use thiserror::Error;

/// Why a text is no report's.
#[derive(Clone, Copy, Debug, PartialEq, Eq, Error)]
pub enum ReportNo {
    /// At this byte, counted from 0, no report goes on.
    #[error("no report goes on here")]
    Form(usize),
    #[error("out of memory")]
    NoMemory,
}

impl From<NoMemory> for ReportNo {
    ghost from_gives = { λ _ e. e ≡ no.NoMemory };

    fn from(_e: NoMemory) -> ReportNo {
        ReportNo::NoMemory
    }
}
