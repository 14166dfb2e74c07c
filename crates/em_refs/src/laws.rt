//! Laws of the definitions: each function's contract is the law, and its body is empty.
ghost use Rattle.std.specs.Prelude.{◌≡◌, ◌≢◌, ◌++◌, ℕ, List, Ok, All, IfSome, length};
ghost use Rattle.std.specs.List.{flat_map};
ghost use Rattle.em_refs.specs.declared.part.Part.{Part};
ghost use Rattle.em_refs.specs.Parts.{parted, parts_of, source, left, literal};
ghost use Rattle.em_refs.specs.Nesting.{IsNested, IsUnclosed};

/// Nothing is lost: the parts of a text, each as it was written, and what stands from a reference
/// on that isn't closed, are the text again.
pub fn law_whole()
    ensures before { (text : List ℕ)
        → flat_map (source text) (parted text).parts ++ left text (parted text).unclosed ≡ text }
    ensures all { (text : List ℕ) (ps : List Part) → parts_of text ≡ Ok ps
        → flat_map (source text) ps ≡ text }
{}

/// In a reference that is closed the brackets of its kind pair off, and one that isn't closed has
/// no bracket that closes it.
pub fn law_nested()
    ensures closed { (text : List ℕ) → All (IsNested text) (parted text).parts }
    ensures unclosed { (text : List ℕ) → IfSome (parted text).unclosed (IsUnclosed text) }
{}

/// A text without `$` is one literal, and the empty text has no part.
pub fn law_plain()
    ensures { (text : List ℕ) → All (λ b. b ≢ 36) text
        → parts_of text ≡ Ok (literal 0 (length text)) }
{}
