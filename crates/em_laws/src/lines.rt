//! Logical lines of a makefile: each function's contract is the law, and its body is empty.
ghost use Rattle.std.specs.Prelude.{◌≡◌, ◌<◌, ◌++◌, ◌∷◌, [], ℕ, true, false, List, Some, length};
ghost use Rattle.em_base.specs.Blanks.{trimmed_start, trimmed_end};
ghost use Rattle.em_lines.specs.declared.line.Line.{Line};
ghost use Rattle.em_lines.specs.Lines.{joined};
ghost use Rattle.em_laws.specs.References.{HasNo};
ghost use Rattle.em_laws.specs.Expansions.{EndsOtherwise};
ghost use Rattle.em_laws.specs.Joined.{
  BeginsOtherwise,
  first_place,
  first_line,
  nothing,
  in_front,
  instead,
  IsShort,
};

/// A line that doesn't end with a backslash is a logical line, and those behind it are one further
/// down. What stands behind the last newline is a line where it isn't empty. One that begins with a
/// tab is of a recipe, and loses it. One that is too long ends all.
pub fn law_line()
    ensures none { (file : List ℕ) → joined file [] ≡ nothing }
    ensures line { (file row rest : List ℕ) → HasNo 10 row → EndsOtherwise 92 row
        → BeginsOtherwise 9 row → IsShort row
        → joined file (row ++ 10 ∷ rest) ≡ in_front (first_line file false row) (joined file rest) }
    ensures recipe { (file row rest : List ℕ) → HasNo 10 row → EndsOtherwise 92 row → IsShort row
        → joined file (9 ∷ row ++ 10 ∷ rest)
        ≡ in_front (first_line file true row) (joined file rest) }
    ensures last { (file bs : List ℕ) (b : ℕ) → HasNo 10 (b ∷ bs) → BeginsOtherwise 9 (b ∷ bs)
        → IsShort (b ∷ bs)
        → joined file (b ∷ bs) ≡ in_front (first_line file false (b ∷ bs)) nothing }
    ensures last_recipe { (file row : List ℕ) → HasNo 10 row → IsShort row
        → joined file (9 ∷ row) ≡ in_front (first_line file true row) nothing }
    ensures long { (file row rest : List ℕ) → HasNo 10 row → EndsOtherwise 92 row
        → BeginsOtherwise 9 row → 1048576 < length row
        → joined file (row ++ 10 ∷ rest)
        ≡ record { lines = []; too_long = Some (first_place file) } }
{}

/// A backslash at a line's end joins it with the next one: outside recipes the two and the blanks
/// round them are one space.
pub fn law_continued()
    ensures joined { (file row rest : List ℕ) (l : Line) (ls : List Line) → HasNo 10 row
        → BeginsOtherwise 9 row → (joined file rest).lines ≡ l ∷ ls → l.tab ≡ false
        → IsShort (trimmed_end row ++ 32 ∷ trimmed_start l.text)
        → joined file (row ++ 92 ∷ 10 ∷ rest) ≡ instead
        (first_line file false (trimmed_end row ++ 32 ∷ trimmed_start l.text)) ls
        (joined file rest) }
    ensures end { (file row : List ℕ) → HasNo 10 row → BeginsOtherwise 9 row
        → IsShort (trimmed_end row ++ 32 ∷ [])
        → joined file (row ++ 92 ∷ 10 ∷ [])
        ≡ in_front (first_line file false (trimmed_end row ++ 32 ∷ [])) nothing }
    ensures tab { (file row rest : List ℕ) → HasNo 10 row → BeginsOtherwise 9 row
        → joined file (row ++ 92 ∷ 10 ∷ 9 ∷ rest) ≡ joined file (row ++ 92 ∷ 10 ∷ rest) }
{}

/// In a recipe both stay, and the next line loses a tab at its begin.
pub fn law_continued_recipe()
    ensures plain { (file row rest : List ℕ) (l : Line) (ls : List Line) → HasNo 10 row
        → BeginsOtherwise 9 rest → (joined file (9 ∷ rest)).lines ≡ l ∷ ls
        → IsShort (row ++ 92 ∷ 10 ∷ l.text)
        → joined file (9 ∷ row ++ 92 ∷ 10 ∷ rest) ≡ instead
        (first_line file true (row ++ 92 ∷ 10 ∷ l.text)) ls (joined file (9 ∷ rest)) }
    ensures tab { (file row rest : List ℕ) (l : Line) (ls : List Line) → HasNo 10 row
        → (joined file (9 ∷ rest)).lines ≡ l ∷ ls → IsShort (row ++ 92 ∷ 10 ∷ l.text)
        → joined file (9 ∷ row ++ 92 ∷ 10 ∷ 9 ∷ rest) ≡ instead
        (first_line file true (row ++ 92 ∷ 10 ∷ l.text)) ls (joined file (9 ∷ rest)) }
{}
