//! Patterns of names: each function's contract is the law, and its body is empty.
ghost use Rattle.std.specs.Prelude.{◌≡◌, ◌≢◌, ◌↔◌, ◌||◌, ℕ, true, false, List, [], ◌∷◌, ◌++◌, length};
ghost use Rattle.em_glob.specs.declared.glyph.Glyph.{Glyph};
ghost use Rattle.em_glob.specs.Patterns.{Matches, pieces, is_pattern};
ghost use Rattle.em_laws.specs.Patterns.{
  bare,
  in_brackets,
  IsList,
  IsPlainList,
  IsInner,
  IsUnended,
  Lists,
  IsClosed,
};

/// The empty pattern matches the empty name alone, `*` each name, `?` each of one byte, a glyph
/// that is quoted its byte alone, and so does one that isn't `*`, `?` or `[`.
pub fn law_one()
    ensures empty { (name : List ℕ) → Matches (pieces []) name ↔ (name ≡ []) }
    ensures star { (name : List ℕ) → Matches (pieces (bare 42 ∷ [])) name }
    ensures question { (name : List ℕ)
        → Matches (pieces (bare 63 ∷ [])) name ↔ (length name ≡ 1) }
    ensures quoted { (g : Glyph) (name : List ℕ) → g.quoted ≡ true
        → Matches (pieces (g ∷ [])) name ↔ (name ≡ g.byte ∷ []) }
    ensures other { (g : Glyph) (name : List ℕ) → g.byte ≢ 42 → g.byte ≢ 63 → g.byte ≢ 91
        → Matches (pieces (g ∷ [])) name ↔ (name ≡ g.byte ∷ []) }
{}

/// `[..]` matches one byte that is listed, or within a range, its two ends among it; `[!..]` one
/// byte that isn't.
pub fn law_set()
    ensures listed { (list : List Glyph) (name : List ℕ) → IsPlainList list
        → Matches (pieces (in_brackets list)) name ↔ ((b : ℕ) × (name ≡ b ∷ []) × Lists list b) }
    ensures negated { (list : List Glyph) (name : List ℕ) → IsList list
        → Matches (pieces (in_brackets (bare 33 ∷ list))) name
        ↔ ((b : ℕ) × (name ≡ b ∷ []) × ¬ Lists list b) }
{}

/// A `[` without its `]` is itself.
pub fn law_unended()
    ensures { (gs : List Glyph) (name : List ℕ) → IsUnended gs
        → Matches (pieces (bare 91 ∷ gs)) name
        ↔ ((rest : List ℕ) × (name ≡ 91 ∷ rest) × Matches (pieces gs) rest) }
{}

/// A pattern in which each `[` has its `]`, and another behind it, match the names that are put
/// together from one of each.
pub fn law_put_together()
    ensures { (xs ys : List Glyph) (name : List ℕ) → IsClosed xs
        → Matches (pieces (xs ++ ys)) name ↔ ((front : List ℕ) × (rest : List ℕ)
        × (name ≡ front ++ rest) × Matches (pieces xs) front × Matches (pieces ys) rest) }
{}

/// A pattern is one by a `*`, a `?` or a set with its `]`.
pub fn law_wild()
    ensures empty { is_pattern [] ≡ false }
    ensures star { is_pattern (bare 42 ∷ []) ≡ true }
    ensures question { is_pattern (bare 63 ∷ []) ≡ true }
    ensures set { (inner : List Glyph) → IsInner inner → is_pattern (in_brackets inner) ≡ true }
    ensures quoted { (g : Glyph) → g.quoted ≡ true → is_pattern (g ∷ []) ≡ false }
    ensures other { (g : Glyph) → g.byte ≢ 42 → g.byte ≢ 63 → g.byte ≢ 91
        → is_pattern (g ∷ []) ≡ false }
    ensures unended { (gs : List Glyph) → IsUnended gs
        → is_pattern (bare 91 ∷ gs) ≡ is_pattern gs }
    ensures together { (xs ys : List Glyph) → IsClosed xs
        → is_pattern (xs ++ ys) ≡ (is_pattern xs || is_pattern ys) }
{}
