//! Laws of the definitions: each function's contract is the law, and its body is empty.
ghost use Rattle.std.specs.Prelude.{◌≡◌, ◌≢◌, ◌≤◌, ◌∷◌, [], ℕ, List, All, Some, count_by};
ghost use Rattle.std.specs.List.{join_with_byte, list_any};
ghost use Rattle.std.specs.Str.{bytes_eq};
ghost use Rattle.em_vars.specs.Entries.{Entries, value_of};
ghost use Rattle.em_plan.specs.declared.planned.PlanJob.{PlanJob};
ghost use Rattle.em_recipe.specs.declared.mark.Marks.{Marks};
ghost use Rattle.em_recipe.specs.Marks.{marks, bare, either, Includes};
ghost use Rattle.em_recipe.specs.Commands.{split, commands_of};
ghost use Rattle.em_expand.specs.Layered.{automatic};
ghost use Rattle.em_recipe.specs.Automatic.{once, texts, with_automatic};

/// Both marks together are the least that has each mark of the one and of the other.
pub fn law_either()
    ensures first { (a b : Marks) → Includes (either a b) a }
    ensures second { (a b : Marks) → Includes (either a b) b }
    ensures least { (a b c : Marks) → Includes c a → Includes c b → Includes c (either a b) }
{}

/// The lines of a text, joined by newlines, are the text, and none can be split again.
pub fn law_split()
    ensures joined { (text : List ℕ) → join_with_byte 10 (split text) ≡ text }
    ensures whole { (text : List ℕ) → All (λ l. split l ≡ l ∷ []) (split text) }
{}

/// No line for the shell is empty, or has blanks or marks in front of it, and each has the marks in
/// front of the line as it was written.
pub fn law_commands()
    ensures filled { (written expanded : List ℕ)
        → All (λ c. c.text ≢ []) (commands_of written expanded) }
    ensures bare { (written expanded : List ℕ)
        → All (λ c. bare c.text ≡ c.text) (commands_of written expanded) }
    ensures marked { (written expanded : List ℕ)
        → All (λ c. Includes c.marks (marks written)) (commands_of written expanded) }
{}

/// Without doubles, the same names are there, and each stands once.
pub fn law_once()
    ensures same { (names : List (List ℕ)) (n : List ℕ)
        → list_any (bytes_eq n) (once names) ≡ list_any (bytes_eq n) names }
    ensures single { (names : List (List ℕ)) (n : List ℕ)
        → count_by (bytes_eq n) (once names) ≤ 1 }
{}

/// Each automatic variable has its text, whatever was there, and every other variable is as before.
pub fn law_automatic()
    ensures own { (vars : Entries) (job : PlanJob) (newer : List (List ℕ))
        → All (λ p. value_of (with_automatic vars job newer) p.0 ≡ Some (automatic p.1))
        (texts job newer) }
    ensures others { (vars : Entries) (job : PlanJob) (newer : List (List ℕ)) (n : List ℕ)
        → All (λ p. p.0 ≢ n) (texts job newer)
        → value_of (with_automatic vars job newer) n ≡ value_of vars n }
{}
