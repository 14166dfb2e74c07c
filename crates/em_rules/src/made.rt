//! What a rule comes to: its names as they are known, and a rule for each target of a static
//! pattern rule or a double-colon rule; a grouped static pattern rule stays one.
ghost use Rattle.std.specs.Prelude.{◌≡◌, ◌<◌, ◌++◌, ◌∷◌, [], map, length, slice_get, is_none, Some, None, option_map, MatchOption, IfOk, OnOk};
ghost use Rattle.em_wordlist.specs.Stems.{stem_of};
ghost use Rattle.em_rules.specs.Dots.{undotted};
ghost use Rattle.em_rules.specs.Static as static;

use crate::dots::{undot, undotted};
use crate::rule::{RecipeLine, Rule, RuleKind};
use em_base::{NoMemory, Seq, Text};
use em_wordlist::{fill, stem};
use std::alloc::Global;

/// The names as they are known.
fn undotted_all(alloc: Global, names: Seq<Text>) -> Result<Seq<Text>, NoMemory>
    ensures { IfOk result (λ s. s ≡ map undotted names) }
{
    let names = names.into_vec();
    let mut known = Vec::with_capacity(alloc, names.len())?;
    for name in names {
        known.push(undot(name))?;
    }
    Ok(Seq::from_vec(known))
}

/// The name as it is known, if there is one.
fn undotted_form(form: Option<Text>) -> Option<Text>
    ensures { result ≡ option_map undotted form }
{
    match form {
        Some(form) => Some(undot(form)),
        None => None,
    }
}

/// The rule with its names as they are known: without the `./` that they begin with. Each name is
/// changed where it stands.
pub fn undotted_rule(alloc: Global, r: Rule) -> Result<Rule, NoMemory>
    ensures { IfOk result (λ k. k ≡ static.undotted_rule r) }
{
    let Rule {
        targets,
        kind,
        pattern,
        form,
        normal,
        order,
        recipe,
        place,
    } = r;
    Ok(Rule {
        targets: undotted_all(alloc, targets)?,
        kind,
        pattern,
        form: undotted_form(form),
        normal: undotted_all(alloc, normal)?,
        order: undotted_all(alloc, order)?,
        recipe,
        place,
    })
}

/// Whether the name as it is known matches the target pattern.
fn is_unmatched(form: &[u8], target: &Text) -> bool
    ensures { result ≡ is_none (stem_of form.now (undotted target.now)) }
{
    stem(form, undotted(target.bytes())).is_none()
}

/// The place of the first target that the target pattern doesn't match.
fn unmatched_in(form: &[u8], targets: &[Text]) -> Option<usize>
    ensures { MatchOption result
        (static.unmatched_by (Some form.now) (map undotted targets.now) ≡ None)
        (λ i. (i < length targets.now)
        × (static.unmatched_by (Some form.now) (map undotted targets.now)
        ≡ slice_get (map undotted targets.now) i)) }
{
    for (i, target) in targets.iter().enumerate() {
        if is_unmatched(form, target) {
            return Some(i);
        }
    }
    None
}

/// The place of the first target of a static pattern rule that its target pattern doesn't match. No
/// memory.
pub fn unmatched(r: &Rule) -> Option<usize>
    ensures { MatchOption result
        (static.unmatched (static.undotted_rule r.now) ≡ None)
        (λ i. (i < length r.now.targets)
        × (static.unmatched (static.undotted_rule r.now)
        ≡ slice_get (map undotted r.now.targets) i)) }
{
    match &r.form {
        Some(form) => unmatched_in(undotted(form.bytes()), r.targets.items()),
        None => None,
    }
}

/// The target at this place as it is known. No memory.
pub(crate) fn into_target(r: Rule, at: usize) -> Text
    requires { at < length r.targets }
    ensures { slice_get (map undotted r.targets) at ≡ Some result }
{
    let mut targets = r.targets.into_vec();
    undot(targets.swap_remove(at))
}

/// Appends the names that the patterns are with this stem, as they are known.
fn add_made(
    alloc: Global,
    names: &mut Seq<Text>,
    stem: &[u8],
    patterns: &[Text],
) -> Result<(), NoMemory>
    ensures { OnOk result (names.new ≡ names.old ++ static.made stem.now patterns.now) }
{
    for pattern in patterns {
        let name = fill(alloc, pattern.bytes(), stem)?;
        names.push(Text::from_slice(alloc, undotted(name.bytes()))?)?;
    }
    Ok(())
}

/// The names that the patterns are with this stem, as they are known.
fn made(alloc: Global, stem: &[u8], patterns: &[Text]) -> Result<Seq<Text>, NoMemory>
    ensures { IfOk result (λ s. s ≡ static.made stem.now patterns.now) }
{
    let mut names = Seq::new(alloc);
    add_made(alloc, &mut names, stem, patterns)?;
    Ok(names)
}

/// The rule of one target of a static pattern rule.
fn rule_for(alloc: Global, rule: &Rule, target: &Text) -> Result<Rule, NoMemory>
    ensures { IfOk result (λ r. r ≡ static.rule_for rule.now target.now) }
{
    let mut targets = Seq::new(alloc);
    targets.push(target.copy(alloc)?)?;
    let stem = rule.stem(target.bytes());
    Ok(Rule {
        targets,
        kind: rule.kind,
        pattern: rule.pattern,
        form: copied_form(alloc, &rule.form)?,
        normal: made(alloc, stem, rule.normal.items())?,
        order: made(alloc, stem, rule.order.items())?,
        recipe: copied_recipe(alloc, &rule.recipe)?,
        place: rule.place.copy(alloc)?,
    })
}

fn copied_form(alloc: Global, form: &Option<Text>) -> Result<Option<Text>, NoMemory>
    ensures { IfOk result (λ c. c ≡ form.now) }
{
    match form {
        Some(form) => Ok(Some(form.copy(alloc)?)),
        None => Ok(None),
    }
}

fn copied_recipe(
    alloc: Global,
    recipe: &Option<Seq<RecipeLine>>,
) -> Result<Option<Seq<RecipeLine>>, NoMemory>
    ensures { IfOk result (λ c. c ≡ recipe.now) }
{
    match recipe {
        Some(lines) => Ok(Some(lines.copy(alloc)?)),
        None => Ok(None),
    }
}

/// The rules of the targets of a static pattern rule.
fn rules_for(alloc: Global, rule: &Rule) -> Result<Vec<Rule>, NoMemory>
    ensures { IfOk result (λ v. v.items ≡ map (static.rule_for rule.now) rule.now.targets) }
{
    let mut rules = Vec::new(alloc);
    for target in rule.targets.items() {
        rules.push(rule_for(alloc, rule, target)?)?;
    }
    Ok(rules)
}

/// What each target makes of the patterns, in a row.
fn in_row(alloc: Global, rule: &Rule, patterns: &[Text]) -> Result<Seq<Text>, NoMemory>
    ensures { IfOk result (λ s. s ≡ static.in_row rule.now patterns.now) }
{
    let mut row = Seq::new(alloc);
    for target in rule.targets.items() {
        add_made(alloc, &mut row, rule.stem(target.bytes()), patterns)?;
    }
    Ok(row)
}

/// A grouped static pattern rule, with the prerequisites of its targets in a row.
fn rule_for_all(alloc: Global, rule: Rule) -> Result<Rule, NoMemory>
    ensures { IfOk result (λ r. r ≡ static.rule_for_all rule) }
{
    let normal = in_row(alloc, &rule, rule.normal.items())?;
    let order = in_row(alloc, &rule, rule.order.items())?;
    Ok(Rule {
        targets: rule.targets,
        kind: rule.kind,
        pattern: rule.pattern,
        form: rule.form,
        normal,
        order,
        recipe: rule.recipe,
        place: rule.place,
    })
}

/// The same rule for one of its targets.
fn alone(alloc: Global, rule: &Rule, target: &Text) -> Result<Rule, NoMemory>
    ensures { IfOk result (λ r. r ≡ static.alone rule.now target.now) }
{
    let mut targets = Seq::new(alloc);
    targets.push(target.copy(alloc)?)?;
    Ok(Rule {
        targets,
        kind: rule.kind,
        pattern: rule.pattern,
        form: copied_form(alloc, &rule.form)?,
        normal: rule.normal.copy(alloc)?,
        order: rule.order.copy(alloc)?,
        recipe: copied_recipe(alloc, &rule.recipe)?,
        place: rule.place.copy(alloc)?,
    })
}

/// The same rule for each of its targets.
fn each_alone(alloc: Global, rule: &Rule) -> Result<Vec<Rule>, NoMemory>
    ensures { IfOk result (λ v. v.items ≡ map (static.alone rule.now) rule.now.targets) }
{
    let mut rules = Vec::new(alloc);
    for target in rule.targets.items() {
        rules.push(alone(alloc, rule, target)?)?;
    }
    Ok(rules)
}

/// One rule.
fn one(alloc: Global, rule: Rule) -> Result<Vec<Rule>, NoMemory>
    ensures { IfOk result (λ v. v.items ≡ rule ∷ []) }
{
    let mut rules = Vec::new(alloc);
    rules.push(rule)?;
    Ok(rules)
}

/// The explicit rules that a rule comes to: one for each target of a static pattern rule and of a
/// double-colon rule, else the rule itself. A grouped static pattern rule stays one, with the
/// prerequisites of its targets in a row.
pub(crate) fn explicit(alloc: Global, rule: Rule) -> Result<Vec<Rule>, NoMemory>
    ensures { IfOk result (λ v. v.items ≡ static.explicit rule) }
{
    match (rule.form.is_some(), rule.kind) {
        (true, RuleKind::Grouped) => one(alloc, rule_for_all(alloc, rule)?),
        (true, _) => rules_for(alloc, &rule),
        (false, RuleKind::Double) => each_alone(alloc, &rule),
        (false, _) => one(alloc, rule),
    }
}
