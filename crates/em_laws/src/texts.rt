//! What utilities make of texts: each function's contract is the law, and its body is empty but
//! where it cites another law.
ghost use Rattle.std.specs.Prelude.{
  ◌≡◌,
  ◌≢◌,
  ◌<◌,
  ◌+◌,
  ◌++◌,
  ◌∷◌,
  ◌↔◌,
  [],
  All,
  Contains,
  ℕ,
  true,
  false,
  List,
  length,
  map,
  reverse,
  decimal,
};
ghost use Rattle.std.specs.List.{flat_map};
ghost use Rattle.std.specs.List.Sorted.{IsPermutation, IsSorted, IsStrictlySortedBy};
ghost use Rattle.std.specs.Ordering.{nat_cmp};
ghost use Rattle.std.specs.Cmp.Lexicographic.{slice_cmp};
ghost use Rattle.em_lineutil.specs.declared.search.Search.{Search};
ghost use Rattle.em_lineutil.specs.declared.sort.Order.{Order};
ghost use Rattle.em_lineutil.specs.declared.difference.Comparison.TheVariants.{
  Same,
  Differ,
  FirstShort,
  SecondShort,
};
ghost use Rattle.em_lineutil.specs.Lines.{head, tail, line_count, word_count, count_line};
ghost use Rattle.em_lineutil.specs.Sorting.{sort_text};
ghost use Rattle.em_lineutil.specs.Runs.{uniq_text, in_seven};
ghost use Rattle.em_lineutil.specs.Searching.{selected, comparison};
ghost use Rattle.em_textutil.specs.declared.job.Grep.{Grep};
ghost use Rattle.em_textutil.specs.declared.source.ReadOperand.{ReadOperand};
ghost use Rattle.em_textutil.specs.declared.source.OperandContent.TheVariants.{No};
ghost use Rattle.em_textutil.specs.Jobs.{grep_done};
ghost use Rattle.em_laws.specs.References.{HasNo, how_many};
ghost use Rattle.em_laws.specs.Expansions.{IsSpace};
ghost use Rattle.em_laws.specs.Rows.{
  ended,
  text_of,
  AreRows,
  order,
  repeated,
  AreRuns,
  IsWanted,
  read_as,
  on_output,
};

/// `head -n N` gives the first N lines, and all where there are no more; a last line without a
/// newline is one too.
pub fn law_head()
    ensures first { (rows : List (List ℕ)) (rest : List ℕ) → AreRows rows
        → head (length rows) (text_of rows ++ rest) ≡ text_of rows }
    ensures all { (rows : List (List ℕ)) (last : List ℕ) (n : ℕ) → AreRows rows → HasNo 10 last
        → length rows < n → head n (text_of rows ++ last) ≡ text_of rows ++ last }
{}

/// `tail -n N` gives the last N lines.
pub fn law_tail()
    ensures none { (text : List ℕ) → tail 0 text ≡ [] }
    ensures last { (before rows : List (List ℕ)) → AreRows before → AreRows rows
        → tail (length rows) (text_of before ++ text_of rows) ≡ text_of rows }
    ensures open { (before rows : List (List ℕ)) (b : ℕ) (bs : List ℕ) → AreRows before
        → AreRows rows → HasNo 10 (b ∷ bs)
        → tail (length rows + 1) (text_of before ++ (text_of rows ++ b ∷ bs))
        ≡ text_of rows ++ b ∷ bs }
    ensures all { (rows : List (List ℕ)) (last : List ℕ) (n : ℕ) → AreRows rows → HasNo 10 last
        → length rows < n → tail n (text_of rows ++ last) ≡ text_of rows ++ last }
{}

/// `wc` counts newlines, words, which stand between spaces, tabs and newlines, and bytes, and
/// writes them in this order.
pub fn law_count()
    ensures lines { (rows : List (List ℕ)) (last : List ℕ) → AreRows rows → HasNo 10 last
        → line_count (text_of rows ++ last) ≡ length rows }
    ensures no_word { word_count [] ≡ 0 }
    ensures word { (b : ℕ) (bs : List ℕ) → All (λ c. ¬ IsSpace c) (b ∷ bs)
        → word_count (b ∷ bs) ≡ 1 }
    ensures words { (front rest : List ℕ) (b : ℕ) → IsSpace b
        → word_count (front ++ b ∷ rest) ≡ word_count front + word_count rest }
    ensures written { (text name : List ℕ)
        → count_line (record { lines = true; words = true; bytes = true }) text (name ∷ [])
        ≡ decimal (line_count text) ++ (32 ∷ decimal (word_count text)
        ++ (32 ∷ decimal (length text) ++ (32 ∷ name ++ 10 ∷ []))) }
    ensures alone { (text : List ℕ)
        → count_line (record { lines = false; words = true; bytes = false }) text []
        ≡ decimal (word_count text) ++ 10 ∷ [] }
{}

/// `sort` gives the lines of all texts in byte order, each as often as it stands there, with `-u`
/// once each, with `-r` from the last on; a last line without a newline is as with one.
pub fn law_sort()
    ensures sorted { (texts : List (List (List ℕ))) → All AreRows texts
        → (out : List (List ℕ)) × IsPermutation (flat_map (λ rows. rows) texts) out
        × IsSorted (slice_cmp nat_cmp) out
        × (sort_text (order false false) (map text_of texts) ≡ text_of out)
        × (sort_text (order true false) (map text_of texts) ≡ text_of (reverse out)) }
    ensures once { (texts : List (List (List ℕ))) → All AreRows texts
        → (out : List (List ℕ)) × ((row : List ℕ)
        → Contains out row ↔ Contains (flat_map (λ rows. rows) texts) row)
        × IsStrictlySortedBy (slice_cmp nat_cmp) out
        × (sort_text (order false true) (map text_of texts) ≡ text_of out)
        × (sort_text (order true true) (map text_of texts) ≡ text_of (reverse out)) }
    ensures last { (o : Order) (before after rows : List (List ℕ)) (b : ℕ) (bs : List ℕ)
        → AreRows rows → HasNo 10 (b ∷ bs)
        → sort_text o (before ++ (text_of rows ++ b ∷ bs) ∷ after)
        ≡ sort_text o (before ++ (text_of (rows ++ (b ∷ bs) ∷ [])) ∷ after) }
{
    em_lineutil::laws::law_sorted();
}

/// `uniq` gives one line for each run of equal ones, with `-c` behind their number.
pub fn law_uniq()
    ensures first { (runs : List _) → AreRuns runs → AreRows (map (λ r. r.0) runs)
        → uniq_text false (text_of (flat_map repeated runs)) ≡ text_of (map (λ r. r.0) runs) }
    ensures counted { (runs : List _) → AreRuns runs → AreRows (map (λ r. r.0) runs)
        → uniq_text true (text_of (flat_map repeated runs))
        ≡ flat_map (λ r. in_seven (decimal r.1) ++ (32 ∷ ended r.0)) runs }
{}

/// `grep -F` gives the lines that hold the text, with `-x` those that are it, with `-v` the others;
/// a newline isn't of its line.
pub fn law_grep()
    ensures none { (s : Search) (p : List ℕ) → selected s p [] ≡ [] }
    ensures taken { (s : Search) (p row rest : List ℕ) → HasNo 10 row → IsWanted s p row
        → selected s p (row ++ 10 ∷ rest) ≡ ended row ∷ selected s p rest }
    ensures passed { (s : Search) (p row rest : List ℕ) → HasNo 10 row → ¬ IsWanted s p row
        → selected s p (row ++ 10 ∷ rest) ≡ selected s p rest }
    ensures last_taken { (s : Search) (p : List ℕ) (b : ℕ) (bs : List ℕ) → HasNo 10 (b ∷ bs)
        → IsWanted s p (b ∷ bs) → selected s p (b ∷ bs) ≡ (b ∷ bs) ∷ [] }
    ensures last_passed { (s : Search) (p : List ℕ) (b : ℕ) (bs : List ℕ) → HasNo 10 (b ∷ bs)
        → ¬ IsWanted s p (b ∷ bs) → selected s p (b ∷ bs) ≡ [] }
{}

/// `grep` has the status 0 where a line of some file was selected, 1 where none was, and 2 where a
/// file couldn't be read. With `-q` it writes nothing, with `-c` how many lines of a file are
/// selected, behind its name where there are several files.
pub fn law_grep_end()
    ensures some { (g : Grep) (before after : List (List ℕ × List ℕ)) (name text : List ℕ)
        → selected g.search g.pattern text ≢ []
        → (grep_done g (map read_as (before ++ (name, text) ∷ after))).status ≡ 0 }
    ensures none { (g : Grep) (files : List (List ℕ × List ℕ))
        → All (λ f. selected g.search g.pattern f.1 ≡ []) files
        → (grep_done g (map read_as files)).status ≡ 1 }
    ensures fault { (g : Grep) (before after : List ReadOperand) (name : List ℕ) (r : _)
        → (grep_done g (before ++ (record { name = name; found = No r }) ∷ after)).status ≡ 2 }
    ensures quiet { (g : Grep) (files : List (List ℕ × List ℕ)) → g.quiet ≡ true
        → (grep_done g (map read_as files)).pieces ≡ [] }
    ensures counted { (g : Grep) (name text : List ℕ) → g.quiet ≡ false → g.counted ≡ true
        → g.several ≡ false → (grep_done g (read_as (name, text) ∷ [])).pieces
        ≡ on_output (decimal (length (selected g.search g.pattern text)) ++ 10 ∷ []) ∷ [] }
    ensures counted_each { (g : Grep) (files : List (List ℕ × List ℕ)) → g.quiet ≡ false
        → g.counted ≡ true → g.several ≡ true
        → (grep_done g (map read_as files)).pieces ≡ map (λ f. on_output (f.0
        ++ 58 ∷ decimal (length (selected g.search g.pattern f.1)) ++ 10 ∷ [])) files }
{}

/// `cmp` tells the first byte that differs and its line, both counted from 1, or the text that is a
/// front of the other.
pub fn law_cmp()
    ensures same { (a : List ℕ) → comparison a a ≡ Same }
    ensures differ { (front a b : List ℕ) (x y : ℕ) → x ≢ y
        → comparison (front ++ x ∷ a) (front ++ y ∷ b)
        ≡ Differ (length front + 1) (how_many 10 front + 1) }
    ensures first { (front b : List ℕ) (y : ℕ)
        → comparison front (front ++ y ∷ b) ≡ FirstShort }
    ensures second { (front a : List ℕ) (x : ℕ)
        → comparison (front ++ x ∷ a) front ≡ SecondShort }
{}
