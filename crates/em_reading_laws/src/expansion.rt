//! The expansion of texts: each function's contract is the law, and its body is empty.
ghost use Rattle.std.specs.Prelude.{◌≡◌, ◌++◌, [], ℕ, List, None};
ghost use Rattle.em_base.specs.declared.place.Place.{Place};
ghost use Rattle.em_refs.specs.Parts.{parted};
ghost use Rattle.em_vars.specs.Entries.{Entries};
ghost use Rattle.em_view.specs.Actions.{Oracle, Workspace};
ghost use Rattle.em_expand.specs.declared.spoken.Spoken.{Spoken};
ghost use Rattle.em_expand.specs.Scopes.{Frame};
ghost use Rattle.em_expand.specs.Expansion.{Setting, expand_text, expansion};
ghost use Rattle.em_reading_laws.specs.Steps.{Begins, state_of, in_front, joined};

/// A text is expanded behind what there is already as it is from nothing: what there is stands in
/// front of the result, and it makes no difference to what is said, asked, paid and refused.
pub fn law_behind()
    ensures { (left : ℕ) (set : Setting) (frames : List Frame) (so_far text : List ℕ)
        → expand_text left set frames text so_far
        ≡ in_front so_far (expand_text left set frames text []) }
{}

/// A text in which every reference is closed, and behind it another one: the whole expands to what
/// the first expands to, followed by what the second does. What they say, ask and pay comes in
/// this order, and a refusal in the first ends both.
pub fn law_parted()
    ensures { (vars : Entries) (cwd : List ℕ) (place : Place) (a b : List ℕ)
        → (parted a).unclosed ≡ None → expansion vars cwd place (a ++ b)
        ≡ joined (expansion vars cwd place a) (expansion vars cwd place b) }
{}

/// What was said stays, and so do the texts that are kept for `eval`, however an expansion ends: it
/// only puts something behind them.
pub fn law_said()
    ensures said { (vars : Entries) (cwd : List ℕ) (place : Place) (text : List ℕ) (s : Spoken)
        (o : Oracle) (w : Workspace)
        → Begins s.said (state_of (expansion vars cwd place text s o w).0).said }
    ensures evals { (vars : Entries) (cwd : List ℕ) (place : Place) (text : List ℕ) (s : Spoken)
        (o : Oracle) (w : Workspace)
        → Begins s.evals (state_of (expansion vars cwd place text s o w).0).evals }
{}
