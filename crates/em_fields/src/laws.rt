//! Laws of the definitions: each function's contract is the law, and its body is empty.
ghost use Rattle.std.specs.Prelude.{◌≡◌, ℕ, true, false, List, All, [], ◌∷◌, ◌++◌, map};
ghost use Rattle.std.specs.List.{join_with_byte};
ghost use Rattle.em_fields.specs.Parts.{fields, glyphs, joined, marked, glyph, IsFilled};
ghost use Rattle.em_fields.specs.declared.part.Part.{Part};

/// A quoted text is one field of all its bytes.
pub fn law_quoted()
    ensures { (text : List ℕ) → fields (marked true text) ≡ map (glyph true) text ∷ [] }
{}

/// Texts that are joined by single spaces part again, where none is empty or has a space, a tab or
/// a newline.
pub fn law_joined()
    ensures { (texts : List (List ℕ)) → All IsFilled texts
        → fields (marked false (join_with_byte 32 texts)) ≡ map (map (glyph false)) texts }
{}

/// That two marks side by side are one changes no field and no byte.
pub fn law_one_mark()
    ensures fields { (parts more : List Part) → fields (joined parts more) ≡ fields (parts ++ more) }
    ensures glyphs { (parts more : List Part) → glyphs (joined parts more) ≡ glyphs (parts ++ more) }
{}

/// Of three the middle one may be added to either.
pub fn law_joined_thrice()
    ensures { (a b c : List Part) → joined (joined a b) c ≡ joined a (joined b c) }
{}
