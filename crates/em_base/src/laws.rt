//! Laws of the definitions: each function's contract is the law, and its body is empty.
ghost use Rattle.std.specs.Prelude.{◌≡◌, ◌<◌, ◌≤◌, ◌^◌, ◌↔◌, ◌-◌, ◌++◌, ℕ, true, false, List, length, slice_index, All, Some, decimal};
ghost use Rattle.std.specs.Cmp.Lexicographic.{pointwise};
ghost use Rattle.em_base.specs.Blanks.{is_blank, trimmed};
ghost use Rattle.em_base.specs.Numbers.{number_of};

/// A text has a number exactly where it is what is written of the number, and the number is at most
/// the limit.
pub fn law_number()
    ensures { (limit n : ℕ) (text : List ℕ) → limit < 2 ^ 64
        → (number_of limit text ≡ Some n) ↔ ((n ≤ limit) × (text ≡ decimal n)) }
{}

/// Where `==` of two items is their equality, `==` of two sequences is equality of their lists.
pub fn law_seq<T: PartialEq>()
    ensures { ((x y : T) → (T.eq x y ≡ true) ↔ (x ≡ y))
        → (xs ys : List T) → (pointwise T.eq xs ys ≡ true) ↔ (xs ≡ ys) }
{}

/// A text is its trimmed text between blanks, and that neither begins nor ends with one.
pub fn law_trimmed()
    ensures parts { (text : List ℕ) → (front : List ℕ) × (back : List ℕ)
        × (text ≡ front ++ (trimmed text ++ back))
        × All (λ b. is_blank b ≡ true) front × All (λ b. is_blank b ≡ true) back }
    ensures first { (text : List ℕ) → 0 < length (trimmed text)
        → is_blank (slice_index (trimmed text) 0) ≡ false }
    ensures last { (text : List ℕ) → 0 < length (trimmed text)
        → is_blank (slice_index (trimmed text) (length (trimmed text) - 1)) ≡ false }
{}
