//! Laws of the definitions: each function's contract is the law, and its body is empty but where it
//! cites another law.
ghost use Rattle.std.specs.Prelude.{
  ◌≡◌,
  ◌≢◌,
  [],
  ℕ,
  true,
  false,
  List,
  All,
  Option,
  Some,
  None,
  Ok,
  slice_get,
};
ghost use Rattle.std.specs.FinMap.{empty};
ghost use Rattle.std.specs.List.{zip};
ghost use Rattle.em_base.specs.declared.place.Place.{Place};
ghost use Rattle.em_expand.specs.declared.spoken.Spoken.{Spoken};
ghost use Rattle.em_job.specs.Carrying.{delete};
ghost use Rattle.em_job.specs.Deciding.{is_phony};
ghost use Rattle.em_job.specs.Effects.{Makes, begin, lines_on};
ghost use Rattle.em_cmdline.specs.declared.order.Order.{Order};
ghost use Rattle.em_job.specs.Ends.{is_idle, is_kept, is_silent, AreUnforced, HasNoLinks, IsKeptAt, node_at};
ghost use Rattle.em_job.specs.Making.{jobs_of};
ghost use Rattle.em_plan.specs.declared.planned.PlanJob.{PlanJob};
ghost use Rattle.em_rules.specs.declared.book.Book.{Book};
ghost use Rattle.em_run.specs.Serial.{IsOne};
ghost use Rattle.em_task.specs.declared.job.Job.{Job};
ghost use Rattle.em_tree.specs.declared.outcome.Outcome.TheVariants.{Made};
ghost use Rattle.em_tree.specs.declared.state.State.{State};
ghost use Rattle.em_view.specs.Actions.{Oracle, Workspace, snapshot};
ghost use Rattle.em_view.specs.declared.effect.Effect.{Effect};

use em_script::laws::law_one_meaning;

/// A job makes one thing of a state at most, since a text means one thing to the shell.
pub fn law_one_effect()
    ensures { IsOne Makes }
{
    law_one_meaning();
}

/// A job that ends without beginning its recipe changes nothing: its targets are up to date, or
/// count as updated, a prerequisite wasn't made, or nothing makes it. But for the last it says
/// nothing.
pub fn law_idle()
    ensures changes { (j : Job) (s : State) (e : Effect) (n : ℕ)
        → Makes j s e n → is_idle e.outcome ≡ true → e.changes ≡ empty }
    ensures says { (j : Job) (s : State) (e : Effect) (n : ℕ)
        → Makes j s e n → is_silent e.outcome ≡ true → e.output ≡ [] }
{}

/// Under `-q` a job changes nothing, however it ends.
pub fn law_question()
    ensures { (j : Job) (s : State) (e : Effect) (n : ℕ)
        → Makes j s e n → j.flags.question ≡ true → e.changes ≡ empty }
{}

/// Under `-n` a job changes nothing, if none of its lines is marked `+`.
pub fn law_dry()
    ensures { (j : Job) (s : State) (e : Effect) (n : ℕ)
        → Makes j s e n → j.flags.dry ≡ true → AreUnforced (lines_on j s) → e.changes ≡ empty }
{}

/// A job without a recipe changes nothing, and its targets aren't made.
pub fn law_recipe()
    ensures changes { (j : Job) (s : State) (e : Effect) (n : ℕ)
        → Makes j s e n → j.plan.recipe ≡ None → e.changes ≡ empty }
    ensures made { (j : Job) (s : State) (e : Effect) (n : ℕ)
        → Makes j s e n → j.plan.recipe ≡ None → e.outcome ≢ Made }
{}

/// Where a line of its recipe failed, a job's targets are deleted under `.DELETE_ON_ERROR` alone,
/// and never a phony one, nor a directory, nor a file whose stamp is the one from before the
/// recipe, each as it stands behind the links. Nothing else is deleted where there are no links: a
/// path that is neither that of a target that goes nor the directory above one keeps what stands
/// there.
pub fn law_deleted()
    ensures by_order { (j : Job) (befores : List (Option ℕ)) (p : Place) (said : Spoken)
        (o : Oracle) (w : Workspace) → j.delete_on_error ≡ false
        → delete j befores p said o w ≡ (Ok (tt, said), w) }
    ensures phony { (j : Job) (befores : List (Option ℕ)) (p : Place) (said : Spoken)
        (o : Oracle) (w : Workspace) → All (λ t. is_phony j t ≡ true) j.plan.targets
        → delete j befores p said o w ≡ (Ok (tt, said), w) }
    ensures kept { (j : Job) (befores : List (Option ℕ)) (p : Place) (said : Spoken) (s : State)
        (w : Workspace) → All (λ t. is_kept s w j t.0 t.1 ≡ true) (zip j.plan.targets befores)
        → (delete j befores p said (snapshot s) w).1.changes ≡ w.changes }
    ensures others { (j : Job) (befores : List (Option ℕ)) (p : Place) (said : Spoken) (s : State)
        (w : Workspace) (q : List ℕ) → HasNoLinks s w
        → All (λ t. IsKeptAt q s w j t.0 t.1) (zip j.plan.targets befores)
        → node_at s (delete j befores p said (snapshot s) w).1 q ≡ node_at s w q }
{}

/// Each job of a build begins with the number at which it stands, and with the base and the fuel of
/// all: so the numbers of its changes, which are made of base and job number, are its own.
pub fn law_numbered()
    ensures { (book : Book) (order : Order) (base i : ℕ) (plans : List PlanJob) (j : Job)
        → slice_get (jobs_of book order base plans) i ≡ Some j
        → (begin j).job ≡ i × (begin j).base ≡ base × (begin j).fuel ≡ order.fuel
        × (begin j).count ≡ 0 }
{}
