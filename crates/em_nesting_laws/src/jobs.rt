//! Jobs: each function's contract is the law, and its body is empty but where it cites another law.
ghost use Rattle.std.specs.Prelude.{◌≡◌, ◌≢◌, ◌↔◌, ℕ, None};
ghost use Rattle.std.specs.FinMap.{empty};
ghost use Rattle.em_job.specs.Effects.{Makes};
ghost use Rattle.em_nesting.specs.Nested.{MakesAll};
ghost use Rattle.em_nesting_laws.specs.Plain.{IsPlain};
ghost use Rattle.em_task.specs.declared.job.Job.{Job};
ghost use Rattle.em_tree.specs.declared.outcome.Outcome.TheVariants.{Made};
ghost use Rattle.em_tree.specs.declared.state.State.{State};
ghost use Rattle.em_view.specs.declared.effect.Effect.{Effect};

/// A job none of whose recipe's lines begins a make has the same effect, for the same fuel, with
/// makes within it as without.
pub fn law_plain()
    ensures { (j : Job) (s : State) (e : Effect) (n : ℕ)
        → IsPlain j s → (Makes j s e n ↔ MakesAll j s e n) }
{}

/// A job without a recipe changes nothing, and its targets aren't made: it begins no make.
pub fn law_no_recipe()
    ensures changes { (j : Job) (s : State) (e : Effect) (n : ℕ)
        → MakesAll j s e n → j.plan.recipe ≡ None → e.changes ≡ empty }
    ensures made { (j : Job) (s : State) (e : Effect) (n : ℕ)
        → MakesAll j s e n → j.plan.recipe ≡ None → e.outcome ≢ Made }
{
    law_plain();
    em_job::laws::law_recipe();
}
