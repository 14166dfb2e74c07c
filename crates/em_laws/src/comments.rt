//! Comments of a makefile's line: each function's contract is the law, and its body is empty.
ghost use Rattle.std.specs.Prelude.{◌≡◌, ◌≢◌, ◌++◌, ◌∷◌, [], ℕ, List};
ghost use Rattle.em_lines.specs.Comments.{bare};
ghost use Rattle.em_laws.specs.References.{HasNo, NeverCloses, PairsOff};
ghost use Rattle.em_laws.specs.Expansions.{EndsOtherwise};

/// A comment begins at the first `#` that stands outside references and has no backslash right
/// before it; `\#` is a `#`. All else stays.
pub fn law_comment()
    ensures none { (text : List ℕ) → HasNo 35 text → bare text ≡ text }
    ensures begins { (front rest : List ℕ) → HasNo 35 front → HasNo 36 front
        → EndsOtherwise 92 front
        → bare (front ++ 35 ∷ rest) ≡ front }
    ensures escaped { (front rest : List ℕ) → HasNo 35 front → HasNo 36 front
        → bare (front ++ 92 ∷ 35 ∷ rest) ≡ front ++ 35 ∷ bare rest }
    ensures plain { (front rest : List ℕ) → HasNo 35 front → HasNo 36 front → EndsOtherwise 92 front
        → bare (front ++ rest) ≡ front ++ bare rest }
{}

/// A `#` in a reference is of it, also in one that isn't closed.
pub fn law_in_reference()
    ensures sign { (rest : List ℕ) → bare (36 ∷ 36 ∷ rest) ≡ 36 ∷ 36 ∷ bare rest }
    ensures letter { (b : ℕ) (rest : List ℕ) → b ≢ 36 → b ≢ 40 → b ≢ 123
        → bare (36 ∷ b ∷ rest) ≡ 36 ∷ b ∷ bare rest }
    ensures round { (name rest : List ℕ) → PairsOff 40 41 name
        → bare ((36 ∷ 40 ∷ name) ++ (41 ∷ rest)) ≡ (36 ∷ 40 ∷ name) ++ (41 ∷ bare rest) }
    ensures curly { (name rest : List ℕ) → PairsOff 123 125 name
        → bare ((36 ∷ 123 ∷ name) ++ (125 ∷ rest)) ≡ (36 ∷ 123 ∷ name) ++ (125 ∷ bare rest) }
    ensures end { bare (36 ∷ []) ≡ 36 ∷ [] }
    ensures open_round { (bytes : List ℕ) → NeverCloses 40 41 bytes
        → bare (36 ∷ 40 ∷ bytes) ≡ 36 ∷ 40 ∷ bytes }
    ensures open_curly { (bytes : List ℕ) → NeverCloses 123 125 bytes
        → bare (36 ∷ 123 ∷ bytes) ≡ 36 ∷ 123 ∷ bytes }
{}
