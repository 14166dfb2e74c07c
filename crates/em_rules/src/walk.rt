//! Answers from the rules themselves, in steps for each name in them.
ghost use Rattle.std.specs.Prelude.{◌≡◌, ◌++◌, ◌∷◌, ◌&&◌, [], length, is_some, Some, None, IfOk, OnOk, if◌then◌else◌};
ghost use Rattle.std.specs.List.{flat_map};
ghost use Rattle.em_rules.specs.Rules.{has_target, numbers_of, recipe_rule, is_mentioned, is_target, is_phony, prerequisites_at};
ghost use Rattle.em_rules.specs.Groups.{is_double, is_single};

use crate::rule::Rule;
use em_base::{NoMemory, Seq, Text};
use std::alloc::Global;

/// Appends the rule's number where it is a rule for the name.
fn add_number(
    numbers: &mut Seq<usize>,
    number: usize,
    rule: &Rule,
    name: &[u8],
) -> Result<(), NoMemory>
    ensures { OnOk result (numbers.new
        ≡ numbers.old ++ (if has_target rule.now name.now then number ∷ [] else [])) }
{
    if rule.has_target(name) {
        numbers.push(number)?;
    }
    Ok(())
}

/// The numbers of the rules for the name, in order.
pub(crate) fn numbers(alloc: Global, rules: &[Rule], name: &[u8]) -> Result<Seq<usize>, NoMemory>
    ensures { IfOk result (λ s. s ≡ numbers_of rules.now name.now) }
{
    let mut numbers = Seq::new(alloc);
    for (i, rule) in rules.iter().enumerate() {
        add_number(&mut numbers, i, rule, name)?;
    }
    Ok(numbers)
}

/// The number, where it is a rule for the name with a recipe.
fn with_recipe(number: usize, rule: &Rule, name: &[u8]) -> Option<usize>
    ensures { result
        ≡ (if has_target rule.now name.now && is_some rule.now.recipe then Some number else None) }
{
    if rule.has_target(name) && rule.recipe.is_some() {
        Some(number)
    } else {
        None
    }
}

/// The number of the last rule for the name that has a recipe.
pub(crate) fn recipe(rules: &[Rule], name: &[u8]) -> Option<usize>
    ensures { result ≡ recipe_rule rules.now name.now }
{
    let mut last = None;
    for (i, rule) in rules.iter().enumerate() {
        last = with_recipe(i, rule, name).or(last);
    }
    last
}

/// Whether the name is a target or a prerequisite of a rule.
pub(crate) fn is_mentioned(rules: &[Rule], name: &[u8]) -> bool
    ensures { result ≡ is_mentioned rules.now name.now }
{
    rules
        .iter()
        .any(|rule| rule.has_target(name) || rule.needs(name))
}

/// Whether the name is a target of a rule.
pub(crate) fn is_target(rules: &[Rule], name: &[u8]) -> bool
    ensures { result ≡ is_target rules.now name.now }
{
    rules.iter().any(|rule| rule.has_target(name))
}

/// Whether there is a double-colon rule for the name.
pub(crate) fn is_double(rules: &[Rule], name: &[u8]) -> bool
    ensures { result ≡ is_double rules.now name.now }
{
    rules
        .iter()
        .any(|rule| rule.has_target(name) && rule.kind.is_double())
}

/// Whether there is a rule for the name that is no double-colon rule.
pub(crate) fn is_single(rules: &[Rule], name: &[u8]) -> bool
    ensures { result ≡ is_single rules.now name.now }
{
    rules
        .iter()
        .any(|rule| rule.has_target(name) && !rule.kind.is_double())
}

/// Whether the name is a prerequisite of `.PHONY`.
pub(crate) fn is_phony(rules: &[Rule], name: &[u8]) -> bool
    ensures { result ≡ is_phony rules.now name.now }
{
    rules
        .iter()
        .any(|rule| rule.has_target(b".PHONY") && rule.needs(name))
}

/// Appends copies of the names.
fn add_names(alloc: Global, list: &mut Seq<Text>, names: &[Text]) -> Result<(), NoMemory>
    ensures { OnOk result (list.new ≡ list.old ++ names.now) }
{
    for name in names {
        list.push(name.copy(alloc)?)?;
    }
    Ok(())
}

/// Appends the prerequisites of the rule.
fn add_rule(alloc: Global, list: &mut Seq<Text>, rule: &Rule) -> Result<(), NoMemory>
    ensures { OnOk result (list.new ≡ list.old ++ (rule.now.normal ++ rule.now.order)) }
{
    add_names(alloc, list, rule.normal.items())?;
    add_names(alloc, list, rule.order.items())?;
    Ok(())
}

/// Appends the prerequisites of the rule of this number.
fn add_prerequisites(
    alloc: Global,
    list: &mut Seq<Text>,
    rules: &[Rule],
    number: usize,
) -> Result<(), NoMemory>
    ensures { OnOk result (list.new ≡ list.old ++ prerequisites_at rules.now number) }
{
    match rules.get(number) {
        Some(rule) => add_rule(alloc, list, rule),
        None => Ok(()),
    }
}

/// The prerequisites of the rules of these numbers.
pub(crate) fn prerequisites(
    alloc: Global,
    rules: &[Rule],
    numbers: &[usize],
) -> Result<Seq<Text>, NoMemory>
    ensures { IfOk result (λ s. s ≡ flat_map (prerequisites_at rules.now) numbers.now) }
{
    let mut list = Seq::new(alloc);
    for number in numbers {
        add_prerequisites(alloc, &mut list, rules, *number)?;
    }
    Ok(list)
}
