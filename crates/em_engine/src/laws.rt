//! Laws of legal journals: each function's contract is the law, and its body is empty.
ghost use Rattle.std.specs.Prelude.{◌≡◌, ◌≤◌, ◌++◌, ◌∷◌, [], ℕ, All, List, length, IfSome, slice_get, slice_index_or};
ghost use Rattle.std.specs.FinMap.{empty};
ghost use Rattle.em_tree.specs.declared.question.Entry.{Entry};
ghost use Rattle.em_tree.specs.declared.outcome.Outcome.{Outcome};
ghost use Rattle.em_tree.specs.declared.state.State.{State};
ghost use Rattle.em_tree.specs.Trees.{Changes};
ghost use Rattle.em_chain.specs.Looking.{looked};
ghost use Rattle.em_engine.specs.declared.event.Event.{Event};
ghost use Rattle.em_engine.specs.declared.event.Event.TheVariants as event;
ghost use Rattle.em_engine.specs.Journal.{IsLegal, first};
ghost use Rattle.em_engine.specs.Laws.{claims_of, settled_in, posts_in, IsRunning, HasEnded, stops_in};

/// It claims each job at most once.
pub fn law_claimed_once()
    ensures { (start : State) (waits : List (List ℕ)) (journal : List Event) (j : ℕ)
        → IsLegal start waits (first (length waits)) journal → claims_of j journal ≤ 1 }
{}

/// It settles the jobs in order, from job 0 on.
pub fn law_settled_in_order()
    ensures { (start : State) (waits : List (List ℕ)) (journal : List Event) (i : ℕ)
        → IsLegal start waits (first (length waits)) journal
        → IfSome (slice_get (settled_in journal) i) (λ j. j ≡ i) }
{}

/// Each answer in it is the one that the start with the last posts before it gives.
pub fn law_answered()
    ensures { (start : State) (waits : List (List ℕ)) (before : List Event) (rest : List Event)
        (j : ℕ) (e : Entry)
        → IsLegal start waits (first (length waits)) (before ++ event.Ask j e ∷ rest)
        → e.answer ≡ looked (record { start = start; posts = posts_in empty before }) j e.question }
{}

/// What asks, publishes or gives up a job stands behind its claim, and nothing between ends the
/// job.
pub fn law_running()
    ensures asks { (start : State) (waits : List (List ℕ)) (before : List Event)
        (rest : List Event) (j : ℕ) (e : Entry)
        → IsLegal start waits (first (length waits)) (before ++ event.Ask j e ∷ rest)
        → IsRunning j before }
    ensures publishes { (start : State) (waits : List (List ℕ)) (before : List Event)
        (rest : List Event) (j : ℕ) (d : Changes) (o : Outcome)
        → IsLegal start waits (first (length waits)) (before ++ event.Publish j d o ∷ rest)
        → IsRunning j before }
    ensures gives_up { (start : State) (waits : List (List ℕ)) (before : List Event)
        (rest : List Event) (j : ℕ)
        → IsLegal start waits (first (length waits)) (before ++ event.GiveUp j ∷ rest)
        → IsRunning j before }
{}

/// Each job that a claimed one waits for has ended before the claim.
pub fn law_waited()
    ensures { (start : State) (waits : List (List ℕ)) (before : List Event) (rest : List Event)
        (j : ℕ) → IsLegal start waits (first (length waits)) (before ++ event.Claim j ∷ rest)
        → All (λ k. HasEnded k before) (slice_index_or waits j []) }
{}

/// The board is stopped at most once.
pub fn law_stopped_once()
    ensures { (start : State) (waits : List (List ℕ)) (journal : List Event)
        → IsLegal start waits (first (length waits)) journal → stops_in journal ≤ 1 }
{}
