//! Laws of the definitions: each function's contract is the law, and its body is empty.
ghost use Rattle.std.specs.Prelude.{◌≡◌, ◌≤◌, ◌↔◌, ◌⊎◌, List, ℕ, [], true, length};
ghost use Rattle.std.specs.List.{Contains};
ghost use Rattle.em_history.specs.Histories.{Pair, IsHistory, fits, united, collected, reading, text_of, limit};

/// What a history writes is read again, unless it is too long; and what is read is the text of
/// what it gives, or gives none.
pub fn law_read()
    ensures back { (ps : List Pair) → IsHistory ps
        → length (text_of ps) ≤ limit → reading (text_of ps) ≡ ps }
    ensures text { (bytes : List ℕ) → (text_of (reading bytes) ≡ bytes) ⊎ (reading bytes ≡ []) }
    ensures history { (bytes : List ℕ) → IsHistory (reading bytes) }
{}

/// The pairs of two histories are a history that has exactly the pairs of both; so are those of any
/// pairs that fit.
pub fn law_united()
    ensures history { (ps qs : List Pair) → IsHistory ps → IsHistory qs → IsHistory (united ps qs) }
    ensures both { (ps qs : List Pair) → IsHistory ps → IsHistory qs
        → (p : Pair) → Contains (united ps qs) p ↔ (Contains ps p ⊎ Contains qs p) }
    ensures collected { (ps : List Pair) → IsHistory (collected ps) }
    ensures fitting { (ps : List Pair) (p : Pair)
        → Contains (collected ps) p ↔ (Contains ps p × (fits p ≡ true)) }
{}

/// There is one history with the same pairs.
pub fn law_one_history()
    ensures { (ps qs : List Pair) → IsHistory ps → IsHistory qs
        → ((p : Pair) → Contains ps p ↔ Contains qs p) → ps ≡ qs }
{}
