//! `printf`: each function's contract is the law, and its body is empty.
ghost use Rattle.std.specs.Prelude.{
  ◌≡◌,
  ◌≢◌,
  ◌<◌,
  ◌≤◌,
  ◌+◌,
  ◌^◌,
  ◌++◌,
  ◌∷◌,
  ◌⊎◌,
  [],
  All,
  ℕ,
  List,
  length,
  replicate,
  decimal,
  codes,
  Ok,
  Err,
  Some,
  None,
  pos,
  neg_ℤ,
  ℤ,
};
ghost use Rattle.std.specs.List.{flat_map};
ghost use Rattle.em_lineutil.specs.declared.format.Part.{Part};
ghost use Rattle.em_lineutil.specs.declared.format.Part.TheVariants as parts;
ghost use Rattle.em_lineutil.specs.Formats.{number_of, printed, faults};
ghost use Rattle.em_laws.specs.Printed.{
  Piece,
  IsPiece,
  in_format,
  as_words,
  in_output,
  output,
  how_many_taken,
};

/// Bytes stand for themselves, `%%` for `%`, `\n`, `\t` and `\\` for a newline, a tab and a `\`;
/// each `%s` is the next word, each `%d` the number that the next word writes. Another letter
/// behind a `%` is refused, and so is a `%` at the end.
pub fn law_format()
    ensures written { (pieces : List Piece) → All IsPiece pieces
        → output (flat_map in_format pieces) (flat_map as_words pieces)
        ≡ Ok (flat_map in_output pieces, []) }
    ensures refused { (pieces : List Piece) (b : ℕ) (rest : List ℕ) (ws : List (List ℕ))
        → All IsPiece pieces → b ≢ 115 → b ≢ 100 → b ≢ 37
        → output (flat_map in_format pieces ++ 37 ∷ b ∷ rest) ws ≡ Err (Some b) }
    ensures ends { (pieces : List Piece) (ws : List (List ℕ)) → All IsPiece pieces
        → output (flat_map in_format pieces ++ 37 ∷ []) ws ≡ Err None }
{}

/// The format is used again as long as words are left; one that takes none is used once, whatever
/// words there are. Where a word is missing, `%s` is as of an empty one, and `%d` as of `0`.
pub fn law_again()
    ensures again { (ps : List Part) (now more : List (List ℕ))
        → length now ≡ how_many_taken ps → now ≢ [] → more ≢ []
        → (printed ps (now ++ more) ≡ printed ps now ++ printed ps more)
        × (faults ps (now ++ more) ≡ faults ps now ++ faults ps more) }
    ensures once { (ps : List Part) (ws : List (List ℕ)) → how_many_taken ps ≡ 0
        → (printed ps ws ≡ printed ps []) × (faults ps ws ≡ []) }
    ensures no_word { (ps qs : List Part) (ws : List (List ℕ))
        → length ws ≡ how_many_taken ps
        → printed (ps ++ parts.Word ∷ qs) ws ≡ printed (ps ++ parts.Word ∷ qs) (ws ++ [] ∷ []) }
    ensures no_number { (ps qs : List Part) (ws : List (List ℕ))
        → length ws ≡ how_many_taken ps
        → printed (ps ++ parts.Number ∷ qs) ws
        ≡ printed (ps ++ parts.Number ∷ qs) (ws ++ (codes "0") ∷ []) }
{}

/// A number is a sign or none and digits, 18 at most; zeros may stand before it. A word that is one
/// has nothing else.
pub fn law_number()
    ensures plain { (n zeros : ℕ) → n < 10 ^ 18 → zeros + length (decimal n) ≤ 18
        → number_of (replicate zeros 48 ++ decimal n) ≡ Some (pos n) }
    ensures plus { (n zeros : ℕ) → n < 10 ^ 18 → zeros + length (decimal n) ≤ 18
        → number_of (43 ∷ replicate zeros 48 ++ decimal n) ≡ Some (pos n) }
    ensures minus { (n zeros : ℕ) → n < 10 ^ 18 → zeros + length (decimal n) ≤ 18
        → number_of (45 ∷ replicate zeros 48 ++ decimal n) ≡ Some (neg_ℤ (pos n)) }
    ensures alone { (w : List ℕ) (z : ℤ) → number_of w ≡ Some z
        → (sign : List ℕ) × (digits : List ℕ) × (w ≡ sign ++ digits)
        × ((sign ≡ []) ⊎ (sign ≡ codes "+") ⊎ (sign ≡ codes "-")) × (0 < length digits)
        × (length digits ≤ 18) × All (λ b. (48 ≤ b) × (b ≤ 57)) digits }
{}
