//! Why there is no plan.
ghost use Rattle.std.specs.Prelude.{◌≡◌};
ghost use Rattle.em_plan.specs.declared.no.PlanNo.TheVariants.{NoMemory};
ghost use Rattle.em_plan.specs.Walking.{of_desk};

use em_view::DeskNo;
use thiserror::Error;

/// Why there is no plan.
#[derive(Clone, Copy, Debug, PartialEq, Eq, Error)]
pub enum PlanNo {
    /// No goal is given, and the makefiles have no default goal.
    #[error("no targets")]
    NoTargets,
    /// The goals reach more than 65,536 units: names, groups and double-colon rules.
    #[error("too many jobs")]
    TooManyJobs,
    /// The desk's fuel doesn't suffice; over a tree this never comes.
    #[error("out of fuel")]
    Spent,
    #[error("out of memory")]
    NoMemory,
}

impl From<em_base::NoMemory> for PlanNo {
    ghost from_gives = { λ _ e. e ≡ NoMemory };

    fn from(_e: em_base::NoMemory) -> PlanNo {
        PlanNo::NoMemory
    }
}

/// A question of the walk is never refused, so that `File` doesn't come.
impl From<DeskNo> for PlanNo {
    ghost from_gives = { λ d e. e ≡ of_desk d };

    fn from(e: DeskNo) -> PlanNo {
        match e {
            DeskNo::Spent => PlanNo::Spent,
            DeskNo::NoMemory | DeskNo::File(_) => PlanNo::NoMemory,
        }
    }
}
