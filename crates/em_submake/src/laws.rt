//! Laws of the definitions: each function's contract is the law, and its body is empty but where it
//! cites another law.
ghost use Rattle.std.specs.Prelude.{◌≡◌, ℕ, List};
ghost use Rattle.em_exec.specs.declared.turn.SubLine.{SubLine};
ghost use Rattle.em_plan.specs.declared.planned.Plan.{Plan};
ghost use Rattle.em_rules.specs.declared.book.Book.{Book};
ghost use Rattle.em_script.specs.Strands.{Plot};
ghost use Rattle.em_submake.specs.Submakes.{made};
ghost use Rattle.em_submake.specs.Ways.{Ended};
ghost use Rattle.em_tree.specs.declared.outcome.Outcome.{Outcome};
ghost use Rattle.em_view.specs.Actions.{Oracle, Workspace};

use em_script::laws::law_one_text;

/// A job with the makes within it comes to one end at most, since a text means one thing to the
/// shell.
pub fn law_one_end()
    ensures { (job_of : SubLine → Plan → ℕ → Book → List Outcome → Plot) (plot : Plot)
        (out : List ℕ) (o : Oracle) (w : Workspace) (y z : Ended Outcome)
        → made job_of plot out o w y → made job_of plot out o w z → y ≡ z }
{
    law_one_text();
}
