//! Laws of the definitions: each function's contract is the law, and its body is empty.
ghost use Rattle.std.specs.Prelude.{◌≡◌, ◌++◌, ◌↔◌, ℕ, List, [], codes, false, true, not};
ghost use Rattle.std.specs.List.{filter, Contains};
ghost use Rattle.std.specs.List.Sorted.{IsPermutation, IsStrictlySortedBy};
ghost use Rattle.std.specs.Ordering.{nat_cmp};
ghost use Rattle.std.specs.Cmp.Lexicographic.{slice_cmp};
ghost use Rattle.em_textfn.specs.Texts.{matches, occurs, sorted, substituted};

/// `filter` and `filter-out` part the words: together they have each as often as it stands there,
/// and none is in both.
pub fn law_filters_part_the_words()
    ensures together { (patterns words : List (List ℕ))
        → IsPermutation words
        (filter (matches patterns) words ++ filter (λ w. not (matches patterns w)) words) }
    ensures apart { (patterns words : List (List ℕ)) (w : List ℕ)
        → Contains (filter (matches patterns) words) w
        → Contains (filter (λ v. not (matches patterns v)) words) w → ⊥ }
{}

/// What `sort` gives rises in byte order, so that no word stands in it twice, and it has the same
/// words.
pub fn law_sorted()
    ensures rises { (words : List (List ℕ))
        → IsStrictlySortedBy (slice_cmp nat_cmp) (sorted words) }
    ensures same { (words : List (List ℕ)) (w : List ℕ)
        → Contains (sorted words) w ↔ Contains words w }
{}

/// Worked cases of the search and the replacement: from the left, without overlaps, and an empty
/// text at the end alone.
pub fn law_worked()
    ensures street { substituted (codes "ee") (codes "EE") (codes "feet on the street")
        ≡ codes "fEEt on the strEEt" }
    ensures left { substituted (codes "aa") (codes "b") (codes "aaa") ≡ codes "ba" }
    ensures nothing { substituted (codes "a") [] (codes "banana") ≡ codes "bnn" }
    ensures new { substituted (codes "ab") (codes "a") (codes "aabb") ≡ codes "aab" }
    ensures end { substituted [] (codes "X") (codes "abc") ≡ codes "abcX" }
    ensures there { occurs (codes "an") (codes "banana") ≡ true }
    ensures empty { occurs [] (codes "abc") ≡ true }
    ensures absent { occurs (codes "ab") (codes "banana") ≡ false }
{}
