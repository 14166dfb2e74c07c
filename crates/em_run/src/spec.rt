//! What a job is asked to do.
ghost use Rattle.std.specs.Prelude.{◌≡◌, ℕ, Bool, true, IfOk};
ghost use Rattle.em_tree.specs.declared.outcome.Outcome.{Outcome};
ghost use Rattle.em_tree.specs.declared.state.State.{State};
ghost use Rattle.em_view.specs.declared.effect.Effect.{Effect};
ghost use Rattle.em_run.specs.Runs.{MeansSame};

use em_base::NoMemory;
use em_tree::Outcome;
use std::alloc::Global;

/// What a job is asked to do: its number, and what it makes of the state on which it runs. Specs
/// that are `==` mean the same.
pub trait Spec: Eq + Drop {
    /// Its number.
    ghost job_of: { Self → ℕ };

    /// Whether the serial run ends after this job, where the job ends so.
    ghost ends_after: { Self → Outcome → Bool };

    /// On this state the job may have this effect, and take this fuel.
    ghost makes: { Self → State → Effect → ℕ → Type 0 };

    /// The job's number.
    fn job(&self) -> u32
        ensures { result ≡ job_of self.now };

    /// Whether the serial run ends after this job, where the job ends so.
    fn ends(&self, o: &Outcome) -> bool
        ensures { result ≡ ends_after self.now o.now };

    /// An equal spec.
    fn copy(&self, alloc: Global) -> Result<Self, NoMemory>
        ensures { IfOk result (λ c. Self.eq c self.now ≡ true) };

    /// Equal specs mean the same.
    ghost means_same: { (a b : Self) → Self.eq a b ≡ true
        → MeansSame job_of ends_after makes a b };
}
