//! References in a text of make: each function's contract is the law, and its body is empty.
ghost use Rattle.std.specs.Prelude.{◌≡◌, ◌≢◌, ℕ, List, [], ◌∷◌, ◌++◌, Some, None};
ghost use Rattle.em_refs.specs.declared.part.Bracket.TheVariants.{Round, Curly};
ghost use Rattle.em_laws.specs.References.{
  Plain,
  Sign,
  Named,
  reading,
  behind,
  HasNo,
  Ends,
  NeverCloses,
  PairsOff,
};

/// The longest text without a `$` that comes first is one part, and the empty text has none: so a
/// literal part is never empty, holds no `$`, and has no other one beside it.
pub fn law_plain()
    ensures some { (b : ℕ) (bs rest : List ℕ) → HasNo 36 (b ∷ bs) → Ends rest
        → reading ((b ∷ bs) ++ rest) ≡ behind (Plain (b ∷ bs)) (reading rest) }
    ensures empty { reading [] ≡ ([], []) }
{}

/// `$$` is a `$`; a `$` and another byte that is no bracket refer to the name of this byte; in
/// brackets the name goes up to the bracket that pairs off, and brackets of the other kind are
/// ordinary.
pub fn law_reference()
    ensures sign { (rest : List ℕ) → reading (36 ∷ 36 ∷ rest) ≡ behind Sign (reading rest) }
    ensures letter { (b : ℕ) (rest : List ℕ) → b ≢ 36 → b ≢ 40 → b ≢ 123
        → reading (36 ∷ b ∷ rest) ≡ behind (Named None (b ∷ [])) (reading rest) }
    ensures round { (name rest : List ℕ) → PairsOff 40 41 name
        → reading ((36 ∷ 40 ∷ name) ++ (41 ∷ rest))
        ≡ behind (Named (Some Round) name) (reading rest) }
    ensures curly { (name rest : List ℕ) → PairsOff 123 125 name
        → reading ((36 ∷ 123 ∷ name) ++ (125 ∷ rest))
        ≡ behind (Named (Some Curly) name) (reading rest) }
{}

/// A `$` at the end, and one whose bracket isn't closed, have no part, and nothing behind them has.
pub fn law_unclosed()
    ensures end { reading (36 ∷ []) ≡ ([], 36 ∷ []) }
    ensures round { (bytes : List ℕ) → NeverCloses 40 41 bytes
        → reading (36 ∷ 40 ∷ bytes) ≡ ([], 36 ∷ 40 ∷ bytes) }
    ensures curly { (bytes : List ℕ) → NeverCloses 123 125 bytes
        → reading (36 ∷ 123 ∷ bytes) ≡ ([], 36 ∷ 123 ∷ bytes) }
{}
