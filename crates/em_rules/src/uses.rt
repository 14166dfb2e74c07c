//! The index of a book's rules by name.
ghost use Rattle.std.specs.Prelude.{◌≡◌, ◌+◌, ◌++◌, ◌<◌, ◌^◌, ℕ, List, length, nat_lt, is_some, option_copied, IfOk, OnOk};
ghost use Rattle.std.specs.Option.{ForSome};
ghost use Rattle.em_rules.specs.declared.rule.Rule.{Rule as RuleData};
ghost use Rattle.std.specs.FinMap as table;
ghost use Rattle.std.specs.Str.{bytes_eq};
ghost use Rattle.em_rules.specs.Index.{no_uses, uses_or, pushed, changed, used, noted, uses_from, Tells};
ghost use Rattle.em_rules.specs.Rules.{is_in};
ghost use Rattle.em_rules.specs.Groups.{is_number};

use crate::rule::Rule;
use em_base::{NoMemory, Seq, Table, Text};
use std::alloc::Global;

/// What a rule uses a name for.
#[derive(Clone, Copy, Debug)]
pub(crate) enum Use {
    /// As a target: the rule's number, whether it has a recipe, and whether it is a double-colon
    /// rule.
    Target {
        rule: usize,
        recipe: bool,
        double: bool,
    },
    /// As a prerequisite, and whether of `.PHONY`.
    Prerequisite {
        phony: bool,
    },
}

/// What the rules use a name for.
#[derive(Debug, Drop)]
pub(crate) struct Uses {
    /// The numbers of the rules for it, in order.
    pub targets: Seq<usize>,
    /// The number of the last of them with a recipe.
    pub recipe: Option<usize>,
    /// Whether one of them is no double-colon rule.
    pub single: bool,
    /// Whether one of them is a double-colon rule.
    pub double: bool,
    /// Whether it is a prerequisite of `.PHONY`.
    pub phony: bool,
}

impl Uses {
    /// No use.
    fn new(alloc: Global) -> Uses
        ensures { result ≡ no_uses }
    {
        Uses {
            targets: Seq::new(alloc),
            recipe: None,
            single: false,
            double: false,
            phony: false,
        }
    }

    /// With one use more.
    fn with(self, new: Use) -> Result<Uses, NoMemory>
        ensures { IfOk result (λ u. u ≡ changed new self) }
    {
        let Uses {
            targets,
            recipe,
            single,
            double,
            phony,
        } = self;
        Ok(match new {
            Use::Target {
                rule,
                recipe: has_recipe,
                double: is_double,
            } => Uses {
                targets: pushed(targets, rule)?,
                recipe: if has_recipe { Some(rule) } else { recipe },
                single: single || !is_double,
                double: double || is_double,
                phony,
            },
            Use::Prerequisite { phony: is_phony } => Uses {
                targets,
                recipe,
                single,
                double,
                phony: phony || is_phony,
            },
        })
    }
}

/// The numbers with this one at the end, once.
fn pushed(mut numbers: Seq<usize>, rule: usize) -> Result<Seq<usize>, NoMemory>
    ensures { IfOk result (λ s. s ≡ pushed numbers rule) }
{
    if !is_number(rule, numbers.items().last()) {
        numbers.push(rule)?;
    }
    Ok(numbers)
}

fn is_number(rule: usize, last: Option<&usize>) -> bool
    ensures { result ≡ is_number rule (option_copied last.entry) }
{
    match last {
        Some(number) => rule == *number,
        None => false,
    }
}

/// Takes the name's uses out of the index.
fn uses_before(alloc: Global, index: &mut Table<Uses>, name: &[u8]) -> Uses
    ensures value { result ≡ uses_or (table.get index.old name.now) }
    ensures rest { index.new ≡ table.remove index.old name.now }
{
    match index.remove(name) {
        Some(uses) => uses,
        None => Uses::new(alloc),
    }
}

/// Notes a use of a name.
fn note(alloc: Global, index: &mut Table<Uses>, name: &Text, new: Use) -> Result<(), NoMemory>
    ensures { OnOk result ((q : List ℕ)
        → table.get index.new q ≡ used (bytes_eq name.now q) new (table.get index.old q)) }
{
    let uses = uses_before(alloc, index, name.bytes()).with(new)?;
    index.insert(name.copy(alloc)?, uses)?;
    Ok(())
}

/// Notes this use of each name.
fn note_names(
    alloc: Global,
    index: &mut Table<Uses>,
    names: &[Text],
    new: Use,
) -> Result<(), NoMemory>
    ensures { OnOk result ((q : List ℕ)
        → table.get index.new q ≡ used (is_in names.now q) new (table.get index.old q)) }
{
    for name in names {
        note(alloc, index, name, new)?;
    }
    Ok(())
}

/// Notes each name of the rule of this number.
fn note_rule(
    alloc: Global,
    index: &mut Table<Uses>,
    number: usize,
    rule: &Rule,
) -> Result<(), NoMemory>
    ensures { OnOk result ((q : List ℕ)
        → table.get index.new q ≡ noted number rule.now q (table.get index.old q)) }
{
    let prerequisite = Use::Prerequisite {
        phony: rule.has_target(b".PHONY"),
    };
    let target = Use::Target {
        rule: number,
        recipe: rule.recipe.is_some(),
        double: rule.kind.is_double(),
    };
    note_names(alloc, index, rule.targets.items(), target)?;
    note_names(alloc, index, rule.normal.items(), prerequisite)?;
    note_names(alloc, index, rule.order.items(), prerequisite)
}

/// Notes each name of the rules, the first of which gets this number.
pub(crate) fn note_rules(
    alloc: Global,
    index: &mut Table<Uses>,
    first: usize,
    rules: &[Rule],
) -> Result<(), NoMemory>
    requires { first + length rules.now < 2 ^ 64 }
    ensures { OnOk result ((q : List ℕ)
        → table.get index.new q ≡ uses_from first rules.now q (table.get index.old q)) }
{
    for (i, rule) in rules.iter().enumerate() {
        note_rule(alloc, index, first + i, rule)?;
    }
    Ok(())
}

/// The index with the rules noted, the first of which gets this number; no index where there is
/// none.
pub(crate) fn with_rules(
    alloc: Global,
    index: Option<Table<Uses>>,
    first: usize,
    rules: &[Rule],
) -> Result<Option<Table<Uses>>, NoMemory>
    requires { first + length rules.now < 2 ^ 64 }
    ensures { (before : List RuleData) → first ≡ length before → ForSome index (λ t. Tells t before)
        → IfOk result (λ new. ForSome new (λ t. Tells t (before ++ rules.now))) }
{
    match index {
        Some(mut index) => {
            note_rules(alloc, &mut index, first, rules)?;
            Ok(Some(index))
        }
        None => Ok(None),
    }
}

/// The numbers of the rules for the name, in order.
pub(crate) fn numbers(
    alloc: Global,
    index: &Table<Uses>,
    name: &[u8],
) -> Result<Seq<usize>, NoMemory>
    ensures { IfOk result (λ s. s ≡ (uses_or (table.get index.now name.now)).targets) }
{
    match index.get(name) {
        Some(uses) => Ok(Seq::from_vec(Vec::from_slice(alloc, uses.targets.items())?)),
        None => Ok(Seq::new(alloc)),
    }
}

/// The number of the last rule for the name that has a recipe.
pub(crate) fn recipe(index: &Table<Uses>, name: &[u8]) -> Option<usize>
    ensures { result ≡ (uses_or (table.get index.now name.now)).recipe }
{
    match index.get(name) {
        Some(uses) => uses.recipe,
        None => None,
    }
}

/// Whether there is a rule for the name.
pub(crate) fn is_target(index: &Table<Uses>, name: &[u8]) -> bool
    ensures { result ≡ nat_lt 0 (length (uses_or (table.get index.now name.now)).targets) }
{
    match index.get(name) {
        Some(uses) => 0 < uses.targets.len(),
        None => false,
    }
}

/// Whether there is a double-colon rule for the name.
pub(crate) fn is_double(index: &Table<Uses>, name: &[u8]) -> bool
    ensures { result ≡ (uses_or (table.get index.now name.now)).double }
{
    match index.get(name) {
        Some(uses) => uses.double,
        None => false,
    }
}

/// Whether there is a rule for the name that is no double-colon rule.
pub(crate) fn is_single(index: &Table<Uses>, name: &[u8]) -> bool
    ensures { result ≡ (uses_or (table.get index.now name.now)).single }
{
    match index.get(name) {
        Some(uses) => uses.single,
        None => false,
    }
}

/// Whether a rule uses the name.
pub(crate) fn is_used(index: &Table<Uses>, name: &[u8]) -> bool
    ensures { result ≡ is_some (table.get index.now name.now) }
{
    index.get(name).is_some()
}

/// Whether the name is a prerequisite of `.PHONY`.
pub(crate) fn is_phony(index: &Table<Uses>, name: &[u8]) -> bool
    ensures { result ≡ (uses_or (table.get index.now name.now)).phony }
{
    match index.get(name) {
        Some(uses) => uses.phony,
        None => false,
    }
}
