//! Laws of the definitions: each function's contract is the law, and its body is empty.
ghost use Rattle.std.specs.Prelude.{◌≡◌, ◌<◌, ◌≤◌, ◌⊎◌, ℕ, List, length, Some, None, slice_get};
ghost use Rattle.em_rules.specs.declared.rule.Rule.{Rule};
ghost use Rattle.em_rules.specs.Dots.{undotted};
ghost use Rattle.em_tree.specs.Trees.{Table};
ghost use Rattle.em_implicit.specs.declared.seek.Found.{Found};
ghost use Rattle.em_implicit.specs.Implicit.{found, offered};
ghost use Rattle.em_implicit.specs.Matches.{match_at, members_of};
ghost use Rattle.em_implicit.specs.Asking.{told};
ghost use Rattle.em_implicit.specs.Seeking.{seeking, stands};

/// The rule that is chosen matches by its target pattern and applies with its stem; of all that do
/// its stem is the shortest, and of those with a stem as short it is of the first rule, and of this
/// the first target pattern. None is chosen only where none matches and applies.
pub fn law_found()
    ensures chosen { (rules patterns : List Rule) (tree : Table) (cwd target : List ℕ) (f : Found)
        → found rules patterns tree cwd target ≡ Some f
        → offered rules patterns tree cwd target f.rule f.pattern ≡ Some f.stem }
    ensures best { (rules patterns : List Rule) (tree : Table) (cwd target : List ℕ) (f : Found)
        → found rules patterns tree cwd target ≡ Some f
        → (j k : ℕ) (stem : List ℕ) → offered rules patterns tree cwd target j k ≡ Some stem
        → (length f.stem < length stem) ⊎ ((length f.stem ≡ length stem)
        × ((f.rule < j) ⊎ ((f.rule ≡ j) × (f.pattern ≤ k)))) }
    ensures none { (rules patterns : List Rule) (tree : Table) (cwd target : List ℕ)
        → found rules patterns tree cwd target ≡ None
        → (j k : ℕ) → offered rules patterns tree cwd target j k ≡ None }
{}

/// Of what the target patterns are for a match, the target itself stands at the place of the
/// pattern that it matches, as it is known.
pub fn law_member()
    ensures { (r : Rule) (i : ℕ) (target : List ℕ) (m : List ℕ × List ℕ)
        → match_at r i target ≡ Some m
        → slice_get (members_of r (Some m)) i ≡ Some (undotted target) }
{}

/// By the answers of a tree the search by questions finds the rule that is chosen there.
pub fn law_seeking()
    ensures { (rules patterns : List Rule) (tree : Table) (cwd target : List ℕ)
        → told (stands tree) (seeking rules patterns cwd target)
        ≡ found rules patterns tree cwd target }
{}
