//! What is refused in the head of a rule: each function's contract is the law, and its body is
//! empty.
ghost use Rattle.std.specs.Prelude.{◌≡◌, ◌⊎◌, ◌++◌, ◌∷◌, [], ℕ, true, Bool, List, Some, codes};
ghost use Rattle.em_base.specs.Blanks.{is_blank};
ghost use Rattle.em_statement.specs.declared.statement.RuleLine.{RuleLine};
ghost use Rattle.em_statement.specs.Heads.{refusal_of};
ghost use Rattle.em_reader.specs.Hearing.{cut_off};
ghost use Rattle.em_reader.specs.Acting.{refusal_in};
ghost use Rattle.em_reading_laws.specs.Heads.{HasNo, NamesNoSuffixes};

/// Of what is refused in `TARGETS : PREREQUISITES` the leftmost is told: what is refused in a head
/// up to a blank is what is refused in it, whatever stands behind, so nothing that is to be refused
/// stands left of what a refusal names. This goes for a head that is written whole, and for one
/// that is known up to a function that is refused: what is told there is refused whatever the
/// function would have given. `.SUFFIXES` is refused for what stands behind the colon: where it is
/// a target, the head is refused all the same, but maybe for `.SUFFIXES`. (With another colon
/// behind it the rule would be a static pattern rule, in which other things are refused.)
pub fn law_leftmost()
    ensures whole { (assigns : Bool) (targets middle rest name : List ℕ) (b : ℕ)
        → is_blank b ≡ true → HasNo 58 targets → HasNo 58 rest
        → NamesNoSuffixes (targets ++ 58 ∷ middle)
        → refusal_of assigns (targets ++ 58 ∷ middle ++ b ∷ []) ≡ Some name
        → refusal_of assigns (targets ++ 58 ∷ middle ++ b ∷ rest) ≡ Some name }
    ensures known { (l : RuleLine) (targets middle rest name function : List ℕ) (b : ℕ)
        → is_blank b ≡ true → HasNo 58 targets → HasNo 58 rest
        → NamesNoSuffixes (targets ++ 58 ∷ middle)
        → refusal_in l (cut_off (targets ++ 58 ∷ middle ++ b ∷ []) function) ≡ Some name
        → refusal_of l.assigns (targets ++ 58 ∷ middle ++ b ∷ rest) ≡ Some name }
    ensures whole_any { (assigns : Bool) (targets middle rest name : List ℕ) (b : ℕ)
        → is_blank b ≡ true → HasNo 58 targets → HasNo 58 rest
        → refusal_of assigns (targets ++ 58 ∷ middle ++ b ∷ []) ≡ Some name
        → (refusal_of assigns (targets ++ 58 ∷ middle ++ b ∷ rest) ≡ Some name)
        ⊎ (refusal_of assigns (targets ++ 58 ∷ middle ++ b ∷ rest) ≡ Some (codes ".SUFFIXES")) }
    ensures known_any { (l : RuleLine) (targets middle rest name function : List ℕ) (b : ℕ)
        → is_blank b ≡ true → HasNo 58 targets → HasNo 58 rest
        → refusal_in l (cut_off (targets ++ 58 ∷ middle ++ b ∷ []) function) ≡ Some name
        → (refusal_of l.assigns (targets ++ 58 ∷ middle ++ b ∷ rest) ≡ Some name)
        ⊎ (refusal_of l.assigns (targets ++ 58 ∷ middle ++ b ∷ rest) ≡ Some (codes ".SUFFIXES")) }
{}
