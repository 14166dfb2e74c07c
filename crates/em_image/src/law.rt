//! What holds of all images.
ghost use Rattle.std.specs.Prelude.{◌≡◌, ◌<◌, ◌≤◌, ℕ, true, List, ◌++◌, length, Ok, Err};
ghost use Rattle.em_image.specs.Image.{HasOneTree, limits};
ghost use Rattle.em_image.specs.Faults.{FaultFits, stays};
ghost use Rattle.em_image.specs.Reading.{reading};
ghost use Rattle.em_tree.specs.Trees.{Table};
ghost use Rattle.em_image.specs.declared.no.ImageNo.{ImageNo};
ghost use Rattle.em_image.specs.declared.no.ImageNo.TheVariants as no;
ghost use Rattle.em_image.specs.declared.no.Which.TheVariants as which;

/// A text belongs to at most one tree. That each tree has one text is its definition.
pub fn one_tree_of_a_text()
    ensures { (bytes : List ℕ) → HasOneTree bytes }
{}

/// Short is told at the text's end, an image that is too long at the limit, and any other fault at
/// a byte of the text.
pub fn faults_have_places()
    ensures within { (bytes : List ℕ) (e : ImageNo) → length bytes ≤ limits.image
        → reading limits bytes ≡ Err e
        → FaultFits (length bytes) e }
    ensures long { (bytes : List ℕ) → limits.image < length bytes
        → reading limits bytes ≡ Err (no.Limit which.Image limits.image) }
{}

/// When bytes are added behind a text, its fault stays, unless it is Short, and a text that was
/// whole has the fault Rest at its former end.
pub fn faults_stay()
    ensures fault { (bytes more : List ℕ) (e : ImageNo) → length (bytes ++ more) ≤ limits.image
        → reading limits bytes ≡ Err e → stays e ≡ true → reading limits (bytes ++ more) ≡ Err e }
    ensures whole { (bytes more : List ℕ) (t : Table) → length (bytes ++ more) ≤ limits.image
        → reading limits bytes ≡ Ok t → 0 < length more
        → reading limits (bytes ++ more) ≡ Err (no.Rest (length bytes)) }
{}
