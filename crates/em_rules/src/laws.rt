//! Laws of the definitions: each function's contract is the law, and its body is empty.
ghost use Rattle.std.specs.Prelude.{◌≡◌, ◌++◌, ◌&&◌, ℕ, List, false, nat_eq, map, filter, length, codes, is_some, slice_get, ◌-◌, [], if◌then◌else◌};
ghost use Rattle.std.specs.List.{enumerate_from, flat_map, starts_with};
ghost use Rattle.em_rules.specs.declared.rule.Rule.{Rule as RuleData};
ghost use Rattle.em_rules.specs.Dots.{undotted, dots};
ghost use Rattle.em_rules.specs.Rules.{is_in, has_target, numbers_of, recipe_rule, prerequisites_of, is_phony};

/// A name is its name as it is known behind as many `./` as were dropped, and that doesn't begin
/// with another.
pub fn law_undotted()
    ensures whole { (name : List ℕ) → (k : ℕ) × (name ≡ dots k ++ undotted name) }
    ensures plain { (name : List ℕ) → starts_with nat_eq (undotted name) (codes "./") ≡ false }
    ensures again { (name : List ℕ) → undotted (undotted name) ≡ undotted name }
{}

/// The rules for a name are those whose targets hold it, in order.
pub fn law_rules_of()
    ensures { (rules : List RuleData) (name : List ℕ) → numbers_of rules name
        ≡ map (λ e. e.0) (filter (λ e. has_target e.1 name) (enumerate_from 0 rules)) }
{}

/// A name's recipe is that of the last of its rules with one.
pub fn law_recipe_rule()
    ensures { (rules : List RuleData) (name : List ℕ) →
        let numbers = map (λ e. e.0)
        (filter (λ e. has_target e.1 name && is_some e.1.recipe) (enumerate_from 0 rules))
        in recipe_rule rules name ≡ slice_get numbers (length numbers - 1) }
{}

/// The prerequisites of a name's rules are theirs, rule by rule; a name is phony where it is one of
/// `.PHONY`'s.
pub fn law_prerequisites()
    ensures joined { (rules : List RuleData) (name : List ℕ) → prerequisites_of rules name
        ≡ flat_map (λ (r : RuleData). if has_target r name then r.normal ++ r.order else []) rules }
    ensures phony { (rules : List RuleData) (name : List ℕ) → is_phony rules name
        ≡ is_in (prerequisites_of rules (codes ".PHONY")) name }
{}
