//! Laws of the definitions: each function's contract is the law, and its body is empty.
ghost use Rattle.std.specs.Prelude.{◌≡◌, ◌↔◌, ℕ, List, [], All, false};
ghost use Rattle.std.specs.List.{Contains};
ghost use Rattle.em_tree.specs.Trees.{Table};
ghost use Rattle.em_rules.specs.Rules.{is_phony};
ghost use Rattle.em_reader.specs.declared.makefiles.Round.{Round};
ghost use Rattle.em_remake.specs.Remaking.{candidates, changed, goals_of, stamp_at};

/// Each goal is a candidate, and isn't phony; without rules there is none.
pub fn law_goals()
    ensures candidate { (r : Round) (tree : Table) (cwd : List ℕ)
        → All (Contains (candidates r)) (goals_of r tree cwd) }
    ensures phony { (r : Round) (tree : Table) (cwd : List ℕ)
        → All (λ n. is_phony r.book.rules n ≡ false) (goals_of r tree cwd) }
    ensures none { (r : Round) (tree : Table) (cwd : List ℕ) → r.book.rules ≡ []
        → r.book.patterns ≡ [] → goals_of r tree cwd ≡ [] }
{}

/// Nothing has changed exactly where each name has the same stamp in both trees, or none in both.
pub fn law_changed()
    ensures { (before after : Table) (names : List (List ℕ)) (cwd : List ℕ)
        → (changed before after names cwd ≡ false)
        ↔ All (λ n. stamp_at before cwd n ≡ stamp_at after cwd n) names }
{}
