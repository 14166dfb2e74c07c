//! A law of the definitions: the function's contract is the law, and its body is empty.
ghost use Rattle.std.specs.Prelude.{◌≡◌, ◌+◌, ℕ, List, IfSome, Option, slice_get, length};
ghost use Rattle.em_tree.specs.declared.state.State.{State};
ghost use Rattle.em_tree.specs.Trees.{Changes};
ghost use Rattle.em_run.specs.Serial.{Made};
ghost use Rattle.em_engine.specs.declared.event.Taken.{Taken};
ghost use Rattle.em_engine.specs.declared.note.Note.{Note};
ghost use Rattle.em_workers.specs.Notes.{AreNotes, AreTurns};

use em_run::Spec;

/// Notes of what was lent of jobs in a row tell the truth: each job was run once, or twice and for
/// a cause that is so on the state that the jobs before it left. The jobs have their places as
/// numbers.
pub fn law_notes<S: Spec>()
    ensures { (s : State) (ds : List Changes) (jobs : List S) (lent : List (Option (Taken S)))
        (made : List Made) (notes : List Note)
        → ((i : ℕ) → IfSome (slice_get jobs i) (λ j. S.job_of j ≡ length ds + i))
        → AreTurns S.job_of S.eq s ds jobs lent made notes → AreNotes s ds made notes }
{}
