//! Why a part of a run gives no value.
ghost use Rattle.std.specs.Prelude.{◌≡◌};
ghost use Rattle.em_program.specs.declared.stop.ProgramEnd.TheVariants as stop;

use crate::verdict::BuildStatus;
use em_base::NoMemory;
use em_host::HostNo;
use em_workers::BuildNo;

/// Why a part of a run gives no value.
#[derive(Clone, Copy, Debug, PartialEq, Eq)]
pub enum ProgramEnd {
    /// The run has ended so, and its last text was said.
    End(BuildStatus),
    /// A call on the host failed.
    Failed,
    NoMemory,
}

impl From<NoMemory> for ProgramEnd {
    ghost from_gives = { λ _ e. e ≡ stop.NoMemory };

    fn from(_e: NoMemory) -> ProgramEnd {
        ProgramEnd::NoMemory
    }
}

impl From<HostNo> for ProgramEnd {
    ghost use Rattle.em_program.specs.Course.{stop_of};

    ghost from_gives = { λ no e. e ≡ stop_of no };

    fn from(no: HostNo) -> ProgramEnd {
        match no {
            HostNo::Failed => ProgramEnd::Failed,
            HostNo::NoMemory => ProgramEnd::NoMemory,
        }
    }
}

impl From<BuildNo> for ProgramEnd {
    ghost use Rattle.em_program.specs.Course.{stop_of_build};

    ghost from_gives = { λ no e. e ≡ stop_of_build no };

    fn from(no: BuildNo) -> ProgramEnd {
        match no {
            BuildNo::Host => ProgramEnd::Failed,
            BuildNo::NoMemory => ProgramEnd::NoMemory,
        }
    }
}
