//! Laws of the definitions: each function's contract is the law, and its body is empty.
ghost use Rattle.std.specs.Prelude.{List, ℕ, ◌≡◌};
ghost use Rattle.std.specs.List.Sorted.{IsPermutation, IsSorted};
ghost use Rattle.std.specs.Ordering.{nat_cmp};
ghost use Rattle.std.specs.Cmp.Lexicographic.{slice_cmp};
ghost use Rattle.em_lineutil.specs.Sorting.{sorted};

/// What `sort` makes of lines rises in byte order, and is a rearrangement of them.
pub fn law_sorted()
    ensures rises { (ls : List (List ℕ)) → IsSorted (slice_cmp nat_cmp) (sorted ls) }
    ensures same { (ls : List (List ℕ)) → IsPermutation ls (sorted ls) }
{}
