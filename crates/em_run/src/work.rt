//! Who runs jobs.
ghost use Rattle.std.specs.Prelude.{◌≡◌, true, IfOk};
ghost use Rattle.em_view.specs.Performs.{AreTrue};

use crate::run::Run;
use crate::spec::Spec;
use em_base::NoMemory;
use em_view::View;
use std::alloc::Global;

/// Runs jobs.
pub trait Work<S: Spec>: Drop {
    /// The run of a job over a view. Each entry of its usage has the answer that the view told of
    /// this ask, where it told one.
    fn run<V: View>(&self, alloc: Global, spec: &S, view: V) -> Result<Run<S>, NoMemory>
        ensures spec { IfOk result (λ r. S.eq r.spec spec.now ≡ true) }
        ensures told { IfOk result (λ r. AreTrue (V.tells view) r.usage) };
}
