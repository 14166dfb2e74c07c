//! Recipes: each function's contract is the law, and its body is empty but where it cites another
//! law.
ghost use Rattle.std.specs.Prelude.{
  ◌≡◌,
  ◌≢◌,
  ◌⊎◌,
  ◌++◌,
  ◌∷◌,
  [],
  All,
  Contains,
  ℕ,
  true,
  List,
  codes,
  map,
};
ghost use Rattle.em_wordlist.specs.Words.{words_of, joined};
ghost use Rattle.em_vars.specs.Entries.{Entries};
ghost use Rattle.em_plan.specs.declared.planned.Pre.{Pre};
ghost use Rattle.em_plan.specs.declared.planned.PlanJob.{PlanJob};
ghost use Rattle.em_recipe.specs.Marks.{marks, bare, either};
ghost use Rattle.em_recipe.specs.Commands.{commands_of};
ghost use Rattle.em_recipe.specs.Automatic.{once, names_of};
ghost use Rattle.em_make_laws.specs.Recipes.{
  Reads,
  HasNo,
  Parted,
  IsParted,
  unmarked,
  BeginsPlain,
  EndsWith,
  AreEscaped,
};

/// The automatic variables by their names: `$@` is the target; `$<` the first normal prerequisite,
/// empty where there is none; `$^` all of them, each once; `$+` all of them as they are written;
/// `$?` those that made remaking due, each once; `$|` the order-only ones; `$*` the stem.
pub fn law_variables()
    ensures target { (vars : Entries) (job : PlanJob) (newer : List (List ℕ))
        → Reads vars job newer (codes "@") job.target }
    ensures first { (vars : Entries) (job : PlanJob) (newer : List (List ℕ)) (p : Pre)
        (ps : List Pre) → job.normal ≡ p ∷ ps → Reads vars job newer (codes "<") p.name }
    ensures no_first { (vars : Entries) (job : PlanJob) (newer : List (List ℕ))
        → job.normal ≡ [] → Reads vars job newer (codes "<") [] }
    ensures each_once { (vars : Entries) (job : PlanJob) (newer : List (List ℕ))
        → Reads vars job newer (codes "^") (joined (once (names_of job.normal))) }
    ensures all { (vars : Entries) (job : PlanJob) (newer : List (List ℕ))
        → Reads vars job newer (codes "+") (joined (names_of job.normal)) }
    ensures newer { (vars : Entries) (job : PlanJob) (newer : List (List ℕ))
        → Reads vars job newer (codes "?") (joined (once newer)) }
    ensures order { (vars : Entries) (job : PlanJob) (newer : List (List ℕ))
        → Reads vars job newer (codes "|") (joined (names_of job.order)) }
    ensures stem { (vars : Entries) (job : PlanJob) (newer : List (List ℕ))
        → Reads vars job newer (codes "*") job.stem }
{
    em_recipe::laws::law_automatic();
}

/// `$(@D)` and `$(@F)` are the directories and the files of the names in `$@`, and so are those of
/// `$<`, `$^`, `$+`, `$?` and `$*`.
pub fn law_directories()
    ensures directories { (vars : Entries) (job : PlanJob) (newer : List (List ℕ)) (b : ℕ)
        (text : List ℕ) (parts : List Parted) → Contains (codes "@<^+?*") b
        → Reads vars job newer (b ∷ []) text → words_of text ≡ map (λ p. p.word) parts
        → All IsParted parts
        → Reads vars job newer (b ∷ codes "D") (joined (map (λ p. p.directory) parts)) }
    ensures files { (vars : Entries) (job : PlanJob) (newer : List (List ℕ)) (b : ℕ)
        (text : List ℕ) (parts : List Parted) → Contains (codes "@<^+?*") b
        → Reads vars job newer (b ∷ []) text → words_of text ≡ map (λ p. p.word) parts
        → All IsParted parts
        → Reads vars job newer (b ∷ codes "F") (joined (map (λ p. p.file) parts)) }
{
    em_recipe::laws::law_automatic();
}

/// Without doubles a name stands where it first stood: one more name changes nothing where it is
/// there, and else comes last.
pub fn law_once()
    ensures none { once [] ≡ [] }
    ensures again { (names : List (List ℕ)) (n : List ℕ) → Contains names n
        → once (names ++ n ∷ []) ≡ once names }
    ensures first { (names : List (List ℕ)) (n : List ℕ) → ¬ Contains names n
        → once (names ++ n ∷ []) ≡ once names ++ n ∷ [] }
{}

/// A line that begins with `@` is silent, with `-` its failure is ignored, with `+` it runs also
/// under `-n`; behind each of them, and behind a blank, it is read on. Else it has no mark.
pub fn law_marks()
    ensures silent { (line : List ℕ) → (marks (64 ∷ line) ≡ (record (marks line) { silent = true }))
        × (bare (64 ∷ line) ≡ bare line) }
    ensures lenient { (line : List ℕ)
        → (marks (45 ∷ line) ≡ (record (marks line) { lenient = true }))
        × (bare (45 ∷ line) ≡ bare line) }
    ensures forced { (line : List ℕ) → (marks (43 ∷ line) ≡ (record (marks line) { forced = true }))
        × (bare (43 ∷ line) ≡ bare line) }
    ensures blank { (line : List ℕ) (b : ℕ) → (b ≡ 32) ⊎ (b ≡ 9)
        → (marks (b ∷ line) ≡ marks line) × (bare (b ∷ line) ≡ bare line) }
    ensures plain { (line : List ℕ) → BeginsPlain line
        → (marks line ≡ unmarked) × (bare line ≡ line) }
{}

/// A newline without a backslash in front of it ends a command. A text in which each newline has
/// one is a single command, without the marks in front of it, and none where nothing is left; it
/// has these marks, and those of the recipe's line as it was written.
pub fn law_commands()
    ensures parted { (written a b : List ℕ) → ¬ EndsWith 92 a
        → commands_of written (a ++ 10 ∷ b) ≡ commands_of written a ++ commands_of written b }
    ensures one { (written text : List ℕ) → AreEscaped text → bare text ≢ []
        → commands_of written text
        ≡ (record { text = bare text; marks = either (marks written) (marks text) }) ∷ [] }
    ensures empty { (written text : List ℕ) → AreEscaped text → bare text ≡ []
        → commands_of written text ≡ [] }
    ensures plain { (written text : List ℕ) → HasNo 10 text → BeginsPlain text → text ≢ []
        → commands_of written text ≡ (record { text = text; marks = marks written }) ∷ [] }
{}
