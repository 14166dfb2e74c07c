//! What units need.
ghost use Rattle.std.specs.Prelude.{◌≡◌, ◌++◌, ◌∷◌, [], true, false, not, map, OnOk};
ghost use Rattle.std.specs.List.{filter, flat_map};
ghost use Rattle.em_rules.specs.Groups.{is_number, normal_for, order_for};
ghost use Rattle.em_plan.specs.Makings.{group_needs, need, needs_for, needs_in, others, others_of, pattern_needs};
ghost use Rattle.em_implicit.specs.Matches.{match_at};

use crate::making::Need;
use em_base::{NoMemory, Seq, Text};
use em_implicit::{match_at, prerequisites_of};
use em_rules::{Rule, Rules};
use std::alloc::Global;

/// Appends prerequisites of one kind, each with a copy of its name.
fn add_names(
    alloc: Global,
    needs: &mut Seq<Need>,
    names: &[Text],
    order: bool,
) -> Result<(), NoMemory>
    ensures { OnOk result (needs.new ≡ needs.old ++ map (need order) names.now) }
{
    for name in names {
        needs.push(Need {
            name: name.copy(alloc)?,
            order,
        })?;
    }
    Ok(())
}

/// Appends prerequisites.
pub(crate) fn add_needs(
    alloc: Global,
    needs: &mut Seq<Need>,
    normal: &[Text],
    order: &[Text],
) -> Result<(), NoMemory>
    ensures { OnOk result (needs.new ≡ needs.old ++ needs_in normal.now order.now) }
{
    add_names(alloc, needs, normal, false)?;
    add_names(alloc, needs, order, true)?;
    Ok(())
}

/// Appends the prerequisites that the rule of this number gives the target.
pub(crate) fn add_needs_for(
    alloc: Global,
    needs: &mut Seq<Need>,
    rules: &Rules,
    target: &[u8],
    number: usize,
) -> Result<(), NoMemory>
    ensures { OnOk result (needs.new ≡ needs.old ++ needs_for rules.now target.now number) }
{
    match rules.get(number) {
        None => Ok(()),
        Some(rule) => add_needs(
            alloc,
            needs,
            rule.normal_for(target),
            rule.order_for(target),
        ),
    }
}

/// Whether it is this number.
fn is_number(number: usize, other: Option<usize>) -> bool
    ensures { result ≡ is_number number other }
{
    match other {
        None => false,
        Some(other) => number == other,
    }
}

/// Appends the prerequisites that the rule of this number gives the target, unless it is this one.
fn add_other(
    alloc: Global,
    needs: &mut Seq<Need>,
    rules: &Rules,
    but: Option<usize>,
    target: &[u8],
    number: usize,
) -> Result<(), NoMemory>
    ensures { OnOk result (needs.new ≡ needs.old ++ flat_map (needs_for rules.now target.now)
        (filter (λ i. not (is_number i but)) (number ∷ []))) }
{
    if is_number(number, but) {
        return Ok(());
    }
    add_needs_for(alloc, needs, rules, target, number)
}

/// Appends the prerequisites of all rules for the target but the one of this number.
fn add_others_of(
    alloc: Global,
    needs: &mut Seq<Need>,
    rules: &Rules,
    but: Option<usize>,
    target: &[u8],
) -> Result<(), NoMemory>
    ensures { OnOk result (needs.new ≡ needs.old ++ others_of rules.now but target.now) }
{
    let numbers = rules.rules_of(alloc, target)?;
    for number in numbers.items() {
        add_other(alloc, needs, rules, but, target, *number)?;
    }
    Ok(())
}

/// Appends the prerequisites of all rules for these targets but the one of this number.
pub(crate) fn add_others(
    alloc: Global,
    needs: &mut Seq<Need>,
    rules: &Rules,
    but: Option<usize>,
    targets: &[Text],
) -> Result<(), NoMemory>
    ensures { OnOk result (needs.new ≡ needs.old ++ others rules.now but targets.now) }
{
    for target in targets {
        add_others_of(alloc, needs, rules, but, target.bytes())?;
    }
    Ok(())
}

/// Appends the normal prerequisites that the rule gives each of its members.
fn add_normal(
    alloc: Global,
    needs: &mut Seq<Need>,
    rule: &Rule,
    members: &[Text],
) -> Result<(), NoMemory>
    ensures { OnOk result
        (needs.new ≡ needs.old ++ map (need false) (flat_map (normal_for rule.now) members.now)) }
{
    for member in members {
        add_names(alloc, needs, rule.normal_for(member.bytes()), false)?;
    }
    Ok(())
}

/// Appends the order-only prerequisites that the rule gives each of its members.
fn add_order(
    alloc: Global,
    needs: &mut Seq<Need>,
    rule: &Rule,
    members: &[Text],
) -> Result<(), NoMemory>
    ensures { OnOk result
        (needs.new ≡ needs.old ++ map (need true) (flat_map (order_for rule.now) members.now)) }
{
    for member in members {
        add_names(alloc, needs, rule.order_for(member.bytes()), true)?;
    }
    Ok(())
}

/// Appends the prerequisites that a grouped rule gives its members: those of a static pattern rule
/// member by member, the normal ones of all before the order-only ones.
pub(crate) fn add_group_needs(
    alloc: Global,
    needs: &mut Seq<Need>,
    rule: &Rule,
    members: &[Text],
) -> Result<(), NoMemory>
    ensures { OnOk result (needs.new ≡ needs.old ++ group_needs rule.now members.now) }
{
    if rule.form.is_none() {
        return add_needs(alloc, needs, rule.normal.items(), rule.order.items());
    }
    add_normal(alloc, needs, rule, members)?;
    add_order(alloc, needs, rule, members)
}

/// Appends the prerequisites that a pattern rule makes for a name that matches its target pattern
/// of this number.
pub(crate) fn add_pattern_needs(
    alloc: Global,
    needs: &mut Seq<Need>,
    rule: &Rule,
    pattern: usize,
    name: &[u8],
) -> Result<(), NoMemory>
    ensures { OnOk result
        (needs.new ≡ needs.old ++ pattern_needs rule.now (match_at rule.now pattern name.now)) }
{
    let Some(found) = match_at(rule, pattern, name) else {
        return Ok(());
    };
    let made = prerequisites_of(alloc, rule, found)?;
    add_needs(alloc, needs, made.normal.items(), made.order.items())
}
