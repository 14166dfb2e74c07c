//! A law of the definitions: the contract is the law.
ghost use Rattle.std.specs.Prelude.{◌≡◌, ℕ, List, Ok};
ghost use Rattle.em_learning.specs.Waits.{ArePlanned};
ghost use Rattle.em_plan.specs.Order.{Says};
ghost use Rattle.em_plan.specs.declared.planned.Plan.{Plan};
ghost use Rattle.em_plan.specs.Plans.{plan_for};

use em_plan::laws::{law_limit, law_waits};

/// The jobs of a plan are such as `waits_with` asks for.
pub fn law_planned()
    ensures { (says : Says) (goals : List (List ℕ)) (p : Plan)
        → plan_for says goals ≡ Ok p → ArePlanned p.jobs }
{
    law_limit();
    law_waits();
}
