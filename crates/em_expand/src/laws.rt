//! Laws of the definitions: each function's contract is the law, and its body is empty.
ghost use Rattle.std.specs.Prelude.{◌≡◌, ◌≢◌, ◌≤◌, ◌-◌, ◌∷◌, [], ℕ, List, All, Ok, Some, None};
ghost use Rattle.em_base.specs.declared.place.Place.{Place};
ghost use Rattle.em_refs.specs.Parts.{bracket_of};
ghost use Rattle.em_vars.specs.Entries.{Entries, value_of};
ghost use Rattle.em_view.specs.Actions.{Oracle, Workspace};
ghost use Rattle.em_view.specs.Steps.{done};
ghost use Rattle.em_expand.specs.declared.spoken.Spoken.{Spoken};
ghost use Rattle.em_expand.specs.Doubled.{doubled};
ghost use Rattle.em_expand.specs.Layered.{automatic, with_own, own_text};
ghost use Rattle.em_expand.specs.Expansion.{expansion};

/// A text without `$` is its own expansion: nothing is said, asked or paid.
pub fn law_plain()
    ensures { (vars : Entries) (cwd : List ℕ) (place : Place) (text : List ℕ)
        → All (λ b. b ≢ 36) text → expansion vars cwd place text ≡ done text }
{}

/// A text with each `$` doubled expands to the text: nothing is said, asked or paid.
pub fn law_doubled()
    ensures { (vars : Entries) (cwd : List ℕ) (place : Place) (text : List ℕ)
        → expansion vars cwd place (doubled text) ≡ done text }
{}

/// A reference without brackets to an undefined variable, whose name is the one byte, is empty and
/// costs one unit.
pub fn law_undefined()
    ensures { (vars : Entries) (cwd : List ℕ) (place : Place) (b : ℕ)
        → (s : Spoken) (o : Oracle) (w : Workspace)
        → b ≢ 36 → bracket_of b ≡ None → value_of vars (b ∷ []) ≡ None → 1 ≤ w.fuel
        → expansion vars cwd place (36 ∷ b ∷ []) s o w
        ≡ (Ok ([], s), record w { fuel = w.fuel - 1 }) }
{}

/// A text's own variable hides a shared one of its name, and every other name is what it is among
/// the shared ones.
pub fn law_layers()
    ensures own { (vars : Entries) (own : List (List ℕ × List ℕ)) (n t : List ℕ)
        → own_text own n ≡ Some t → value_of (with_own vars own) n ≡ Some (automatic t) }
    ensures shared { (vars : Entries) (own : List (List ℕ × List ℕ)) (n : List ℕ)
        → own_text own n ≡ None → value_of (with_own vars own) n ≡ value_of vars n }
{}

/// An expansion changes no file, however it ends.
pub fn law_spares()
    ensures { (vars : Entries) (cwd : List ℕ) (place : Place) (text : List ℕ)
        → (s : Spoken) (o : Oracle) (w : Workspace)
        → (expansion vars cwd place text s o w).1.changes ≡ w.changes }
{}
