//! Laws of the definitions: each function's contract is the law, and its body is empty.
ghost use Rattle.std.specs.Prelude.{◌≡◌, ◌↔◌, ℕ, true, false, List, All, map};
ghost use Rattle.em_glob.specs.declared.glyph.Glyph.{Glyph};
ghost use Rattle.em_glob.specs.Patterns.{Piece, Matches, fits, pieces, is_pattern, bytes_of};

/// The test tells the names that match.
pub fn law_fits()
    ensures { (ps : List Piece) (name : List ℕ) → (fits ps name ≡ true) ↔ Matches ps name }
{}

/// A pattern without wildcards matches itself alone.
pub fn law_plain()
    ensures { (gs : List Glyph) (name : List ℕ) → is_pattern gs ≡ false
        → Matches (pieces gs) name ↔ (name ≡ bytes_of gs) }
{}

/// Quoted glyphs are no pattern.
pub fn law_quoted()
    ensures { (gs : List Glyph) → All (λ g. g.quoted ≡ true) gs → is_pattern gs ≡ false }
{}
