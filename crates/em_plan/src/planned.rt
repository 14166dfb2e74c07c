//! The plan as data.
ghost use Rattle.std.specs.Prelude.{◌≡◌, IfOk};

use crate::numbers::Numbers;
use crate::shared::SharedJob;
use em_base::{NoMemory, Seq, Text, TryClone};
use em_rules::RecipeLine;
use std::alloc::Global;

/// A prerequisite, and the numbers of its jobs: one, but for a name with double-colon rules.
#[derive(Debug, Drop, PartialEq, Eq)]
pub struct Pre {
    pub name: Text,
    pub jobs: Numbers,
}

/// What is to be done for one unit: a name, the members of a group, or what one double-colon rule
/// of a name makes.
#[derive(Debug, Drop, PartialEq, Eq)]
pub struct PlanJob {
    /// The name from which the walk came to the job: `$@`, and what messages name.
    pub target: Text,
    /// All the targets that its recipe makes, in the order of the rule.
    pub targets: Seq<Text>,
    /// Whether it is the job of a double-colon rule.
    pub double: bool,
    /// The normal prerequisites in order, without those that were dropped; a name that is written
    /// twice stands twice.
    pub normal: Seq<Pre>,
    /// The order-only ones, likewise.
    pub order: Seq<Pre>,
    /// What `%` stands for, where the recipe is that of a pattern rule or of a static pattern rule;
    /// else empty.
    pub stem: Text,
    pub recipe: Option<Seq<RecipeLine>>,
    /// Whether a target has a rule, or a pattern rule applies to it.
    pub ruled: bool,
    /// Whether one of the targets is phony.
    pub phony: bool,
    /// The target of the job from which the walk came to this one; `None` where it came to it as a
    /// goal.
    pub needed_by: Option<Text>,
    /// The jobs of all these prerequisites, and of a double-colon rule the earlier ones of its
    /// name, in rising order, once each.
    pub waits: Seq<u32>,
}

/// An equal value, if there is one.
pub(crate) fn copied<T: TryClone + Drop>(
    alloc: Global,
    value: &Option<T>,
) -> Result<Option<T>, NoMemory>
    ensures { IfOk result (λ v. v ≡ value.now) }
{
    match value {
        None => Ok(None),
        Some(value) => Ok(Some(value.try_clone(alloc)?)),
    }
}

/// The jobs in serial order, each with the place at which it stands as its number, the jobs of each
/// goal, and what is said of prerequisites that were dropped. A job is shared with all that hold
/// it, so that what is made of a plan copies none.
#[derive(Debug, Drop, PartialEq, Eq)]
pub struct Plan {
    pub jobs: Seq<SharedJob>,
    pub goals: Seq<Numbers>,
    pub notes: Text,
}
