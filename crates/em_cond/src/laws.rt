//! Laws of the definitions: each function's contract is the law, and its body is empty.
ghost use Rattle.std.specs.Prelude.{◌≡◌, ◌↔◌, Bool, true, List, [], ◌∷◌, length, map, Option, None, Some, unwrap_or};
ghost use Rattle.std.specs.List.{position_or_len};
ghost use Rattle.em_cond.specs.declared.nest.Branch.TheVariants.{Taken};
ghost use Rattle.em_cond.specs.declared.nest.Conditional.{Conditional};
ghost use Rattle.em_cond.specs.Nests.{branch_after, entered, after_others, after_leave};

/// The present branch is read exactly where its condition is the first that holds.
pub fn law_first()
    ensures { (c : Bool) (cs : List Bool)
        → (branch_after (c ∷ cs) ≡ Taken) ↔ (position_or_len (λ b. b) (c ∷ cs) ≡ length cs) }
{}

/// How far a conditional is that was entered and has had further branches: a plain `else` counts as
/// a condition that holds, and nothing follows it.
pub fn law_branches()
    ensures branch { (holds : Bool) (cs : List (Option Bool)) (ks rest : List Conditional)
        (k : Conditional)
        → after_others cs (entered holds ∷ ks) ≡ Some (k ∷ rest)
        → k.branch ≡ branch_after (holds ∷ map (λ c. unwrap_or c true) cs) }
    ensures last { (c : Option Bool) (k : Conditional) (ks : List Conditional)
        → after_others (None ∷ c ∷ []) (k ∷ ks) ≡ None }
{}

/// A nest that a conditional was entered in and left, after any branches, is as before.
pub fn law_left()
    ensures { (holds : Bool) (cs : List (Option Bool)) (ks rest : List Conditional)
        → after_others cs (entered holds ∷ ks) ≡ Some rest → after_leave rest ≡ Some ks }
{}
