//! Why a build gives no value.
ghost use Rattle.std.specs.Prelude.{◌≡◌};
ghost use Rattle.em_workers.specs.declared.no.BuildNo.TheVariants as no;

use em_base::NoMemory;
use em_host::HostNo;
use thiserror::Error;

/// Why a build gives no value.
#[derive(Clone, Copy, Debug, PartialEq, Eq, Error)]
pub enum BuildNo {
    /// A call on the host failed.
    #[error("the host failed")]
    Host,
    #[error("out of memory")]
    NoMemory,
}

impl From<NoMemory> for BuildNo {
    ghost from_gives = { λ _ e. e ≡ no.NoMemory };

    fn from(_e: NoMemory) -> BuildNo {
        BuildNo::NoMemory
    }
}

impl From<HostNo> for BuildNo {
    ghost use Rattle.em_workers.specs.Printing.{build_no};

    ghost from_gives = { λ no e. e ≡ build_no no };

    fn from(no: HostNo) -> BuildNo {
        match no {
            HostNo::Failed => BuildNo::Host,
            HostNo::NoMemory => BuildNo::NoMemory,
        }
    }
}
