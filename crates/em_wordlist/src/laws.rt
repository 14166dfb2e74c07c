//! Laws of the definitions: each function's contract is the law, and its body is empty.
ghost use Rattle.std.specs.Prelude.{◌≡◌, ◌≢◌, ℕ, false, List, [], map, All, Some};
ghost use Rattle.std.specs.List.{position};
ghost use Rattle.em_base.specs.declared.place.Span.{Span};
ghost use Rattle.em_base.specs.Spans.{cut};
ghost use Rattle.em_wordlist.specs.Stems.{is_percent, IsMatch, filled, replaced};
ghost use Rattle.em_base.specs.Blanks.{is_blank};
ghost use Rattle.em_wordlist.specs.Words.{AreWords, words_of, joined};

/// A text has one list of words.
pub fn law_words_are_one()
    ensures { (text : List ℕ) (a b : List Span) → AreWords text a → AreWords text b → a ≡ b }
{}

/// What stands in the spans of the words are the words.
pub fn law_texts()
    ensures { (text : List ℕ) (ss : List Span) → AreWords text ss
        → map (λ s. cut text s) ss ≡ words_of text }
{}

/// Words that are joined and cut again are the same words.
pub fn law_joined_and_cut()
    ensures { (text : List ℕ) → words_of (joined (words_of text)) ≡ words_of text }
{}

/// No word is empty, and none holds a blank.
pub fn law_words()
    ensures { (text : List ℕ)
        → All (λ w. (w ≢ []) × All (λ b. is_blank b ≡ false) w) (words_of text) }
{}

/// A word that matches a pattern with a `%` becomes the other text with its stem put in.
pub fn law_stem_is_put_back()
    ensures { (pattern to word stem : List ℕ) (i : ℕ) → position is_percent pattern ≡ Some i
        → IsMatch pattern word stem → replaced pattern to word ≡ filled to stem }
{}

/// A pattern with a `%` that is filled with a stem matches with this stem, and a word that matches
/// is the pattern filled with its stem.
pub fn law_filled_matches()
    ensures matches { (pattern stem : List ℕ) (i : ℕ) → position is_percent pattern ≡ Some i
        → IsMatch pattern (filled pattern stem) stem }
    ensures only { (pattern word stem : List ℕ) → IsMatch pattern word stem
        → filled pattern stem ≡ word }
{}

/// A word that matches, replaced by the pattern itself, stays.
pub fn law_replaced_by_itself()
    ensures { (pattern word stem : List ℕ) → IsMatch pattern word stem
        → replaced pattern pattern word ≡ word }
{}

/// A word that doesn't match stays.
pub fn law_other_words_stay()
    ensures { (pattern to word : List ℕ) → ((stem : List ℕ) → IsMatch pattern word stem → ⊥)
        → replaced pattern to word ≡ word }
{}
