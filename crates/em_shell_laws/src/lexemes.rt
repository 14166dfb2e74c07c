//! Lexemes: each function's contract is the law.
ghost use Rattle.std.specs.Prelude.{
  ◌≡◌,
  ◌≢◌,
  ◌+◌,
  ◌++◌,
  ◌∷◌,
  ℕ,
  [],
  All,
  List,
  Some,
  false,
  true,
  codes,
  length,
};
ghost use Rattle.em_lexeme.specs.declared.lexeme.Lexed.{Lexed};
ghost use Rattle.em_lexeme.specs.declared.lexeme.What.{What};
ghost use Rattle.em_lexeme.specs.declared.lexeme.What.TheVariants.{
  Semicolon,
  CaseEnd,
  Ampersand,
  AndIf,
  OrIf,
  Pipe,
  Great,
  DoubleGreat,
  GreatAnd,
};
ghost use Rattle.em_lexeme.specs.Frames.{is_backquotes};
ghost use Rattle.em_lex.specs.Steps.{top};
ghost use Rattle.em_lex.specs.Quotes.{heeds_backslash};
ghost use Rattle.em_lex.specs.Lexing.{lexed};
ghost use Rattle.em_shell_laws.specs.Operators.{
  State,
  IsBetween,
  from_there,
  spelling,
  IsLongest,
  Reads,
};
ghost use Rattle.em_shell_laws.specs.Quotes.{
  Inside,
  MayStand,
  all_written,
  all_meant,
  one_word,
  kinds,
};

/// Between double quotes each byte stands for itself but `$`, the backquote, `"` and the backslash.
/// Behind a backslash these four stand for themselves without it, a newline goes with it, and
/// before any other byte it stays. What is quoted so is one word.
pub fn law_double_quotes()
    ensures { (parts : List Inside) → All MayStand parts
        → lexed (34 ∷ all_written parts ++ 34 ∷ [])
        ≡ one_word (length (all_written parts)) (all_meant parts) }
{}

/// The longest operator is taken: some texts.
pub fn law_operators()
    ensures case_end { kinds (codes ";;;") ≡ CaseEnd ∷ Semicolon ∷ [] }
    ensures and_if { kinds (codes "&&&") ≡ AndIf ∷ Ampersand ∷ [] }
    ensures or_if { kinds (codes "|||") ≡ OrIf ∷ Pipe ∷ [] }
    ensures double_great { kinds (codes ">>>") ≡ DoubleGreat ∷ Great ∷ [] }
    ensures great_apart { kinds (codes ">>&") ≡ DoubleGreat ∷ Ampersand ∷ [] }
    ensures duplicate { kinds (codes ">&&") ≡ GreatAnd ∷ Ampersand ∷ [] }
{}

/// At a place of a list, outside of words, where nothing is begun, the longest operator is read
/// that can be made of what stands there, and from behind it the line is read on, where again
/// nothing is begun. (Of an operator with a backslash and a newline behind it nothing is said:
/// these vanish, and it may go on behind them. Nor of `)`, with which no longer operator begins,
/// and which may close `$(`.)
pub fn law_longest()
    ensures { (within : List ℕ → Lexed) (s : State) (at : ℕ) (what : What) (op rest : List ℕ)
        → IsBetween s → spelling what ≡ Some op → IsLongest op rest
        → ((more : List ℕ) → rest ≢ 92 ∷ 10 ∷ more)
        → Reads within s at what (length op) (op ++ rest) rest }
{}

/// A backslash and a newline vanish at any place but in a comment, between single quotes, and
/// behind another backslash: the line is read on as if they weren't there, with its places counted
/// on. (What stands in backquotes is read later, by itself.)
pub fn law_continued()
    ensures { (within : List ℕ → Lexed) (s : State) (at : ℕ) (rest : List ℕ)
        → s.backslash ≡ false → is_backquotes (top s) ≡ false → heeds_backslash s ≡ true
        → from_there within s at (92 ∷ 10 ∷ rest) ≡ from_there within s (at + 2) rest }
{}
