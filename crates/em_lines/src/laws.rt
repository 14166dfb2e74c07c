//! Laws of the definitions: each function's contract is the law, and its body is empty.
ghost use Rattle.std.specs.Prelude.{◌≡◌, ◌==◌, ◌||◌, not, ℕ, List, None, filter, map, take, drop};
ghost use Rattle.std.specs.List.{flat_map};
ghost use Rattle.em_base.specs.Blanks.{is_blank};
ghost use Rattle.em_lines.specs.Comments.{bare};
ghost use Rattle.em_lines.specs.Lines.{joined, logical};
ghost use Rattle.em_lines.specs.Kept.{is_kept, IsComment, bared};

/// Joining loses nothing but blanks, newlines and backslashes: all other bytes of the file stand in
/// the lines, in order.
pub fn law_joined()
    ensures { (file bytes : List ℕ) → (joined file bytes).too_long ≡ None
        → filter is_kept (flat_map (λ l. l.text) (joined file bytes).lines) ≡ filter is_kept bytes }
{}

/// A line is cut at most once, in front of a `#`, and what is left loses nothing but backslashes.
pub fn law_bare()
    ensures { (text : List ℕ) → (n : ℕ) × (IsComment (drop n text)
        × (filter (λ b. not (b == 92)) (bare text) ≡ filter (λ b. not (b == 92)) (take n text))) }
{}

/// The logical lines are the joined lines, those outside recipes without their comments.
pub fn law_logical()
    ensures lines { (file bytes : List ℕ)
        → (logical file bytes).lines ≡ map bared (joined file bytes).lines }
    ensures end { (file bytes : List ℕ)
        → (logical file bytes).too_long ≡ (joined file bytes).too_long }
{}
