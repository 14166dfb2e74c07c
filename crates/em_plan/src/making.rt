//! What the makefiles say of a name.
ghost use Rattle.std.specs.Prelude.{◌≡◌, ◌<◌, ◌^◌, false, length, IfErr, IfOk, IfSome, option_copied, option_map, slice_get, Some};
ghost use Rattle.std.specs.List.{list_any};
ghost use Rattle.em_rules.specs.Rules.{is_phony, numbers_of};
ghost use Rattle.em_view.specs.Rows.{is_refusal};
ghost use Rattle.em_implicit.specs.Asking.{and_then, Asked};
ghost use Rattle.em_plan.specs.Makings.{bare_unit, double_unit, group_of, own_unit, pattern_by, recipe_by, ruled_unit, stem_by, unruled_unit};
ghost use Rattle.em_plan.specs.Resuming.{known_in, numbers_in};
ghost use Rattle.em_plan.specs.Walking.{asks_for, found_asking, Offers, unit_asking, unruled_by};

use crate::marks::{VisitMark, numbers};
use crate::members::{Choice, alone};
use crate::needs::{add_group_needs, add_needs, add_needs_for, add_others, add_pattern_needs};
use crate::planned::copied;
use em_base::{NoMemory, Seq, Table, Text};
use em_implicit::{Found, There, find_by};
use em_path::Path;
use em_rules::{Book, RecipeLine, Rule, Rules};
use em_view::DeskNo;
use std::alloc::Global;

/// A prerequisite, as it is written.
#[derive(Debug, Drop)]
pub struct Need {
    pub name: Text,
    /// Whether it is order-only.
    pub order: bool,
}

/// How a unit is made: a name, the members of a group, or what one double-colon rule makes.
#[derive(Debug, Drop)]
pub struct Making {
    pub targets: Seq<Text>,
    /// Whether it is a double-colon rule.
    pub double: bool,
    /// Its prerequisites in the order in which they are visited.
    pub needs: Seq<Need>,
    /// What `%` stands for, where the recipe is that of a pattern rule or of a static pattern rule;
    /// else empty.
    pub stem: Text,
    pub recipe: Option<Seq<RecipeLine>>,
    /// Whether a target has a rule, or a pattern rule applies to it.
    pub ruled: bool,
    /// Whether one of the targets is phony.
    pub phony: bool,
}

/// What `%` stands for in a static pattern rule.
fn stem_of(alloc: Global, rule: Option<&Rule>, name: &[u8]) -> Result<Text, NoMemory>
    ensures { IfOk result (λ t. t ≡ stem_by (option_copied rule.entry) name.now) }
{
    match rule {
        None => Ok(Text::new(alloc)),
        Some(rule) => Text::from_slice(alloc, rule.stem(name)),
    }
}

/// The rule's recipe, if it has one.
fn recipe_of(alloc: Global, rule: Option<&Rule>) -> Result<Option<Seq<RecipeLine>>, NoMemory>
    ensures { IfOk result (λ r. r ≡ recipe_by (option_copied rule.entry)) }
{
    match rule {
        None => Ok(None),
        Some(rule) => copied(alloc, &rule.recipe),
    }
}

/// Whether one of the names is phony.
fn is_any_phony(rules: &Rules, names: &[Text]) -> bool
    ensures { result ≡ list_any (is_phony rules.now) names.now }
{
    names.iter().any(|name| rules.is_phony(name.bytes()))
}

/// The unit of the name's double-colon rule of this number.
fn double_unit(alloc: Global, rules: &Rules, name: &[u8], number: usize) -> Result<Making, NoMemory>
    ensures { IfOk result (λ m. m ≡ double_unit rules.now name.now number) }
{
    let rule = rules.get(number);
    let targets = alone(alloc, name)?;
    let mut needs = Seq::new(alloc);
    add_needs_for(alloc, &mut needs, rules, name, number)?;
    Ok(Making {
        phony: is_any_phony(rules, targets.items()),
        targets,
        double: true,
        needs,
        stem: stem_of(alloc, rule, name)?,
        recipe: recipe_of(alloc, rule)?,
        ruled: true,
    })
}

/// The unit of a name without a recipe.
fn bare_unit(alloc: Global, rules: &Rules, name: &[u8]) -> Result<Making, NoMemory>
    ensures { IfOk result (λ m. m ≡ bare_unit rules.now name.now) }
{
    let targets = alone(alloc, name)?;
    let mut needs = Seq::new(alloc);
    add_others(alloc, &mut needs, rules, None, targets.items())?;
    Ok(Making {
        phony: is_any_phony(rules, targets.items()),
        targets,
        double: false,
        needs,
        stem: Text::new(alloc),
        recipe: None,
        ruled: rules.is_target(name),
    })
}

/// The unit of a name that has its recipe from this rule, the one of this number.
fn own_unit(
    alloc: Global,
    rules: &Rules,
    name: &[u8],
    number: usize,
    rule: &Rule,
) -> Result<Making, NoMemory>
    ensures { IfOk result (λ m. m ≡ own_unit rules.now name.now number rule.now) }
{
    let targets = alone(alloc, name)?;
    let mut needs = Seq::new(alloc);
    add_needs(
        alloc,
        &mut needs,
        rule.normal_for(name),
        rule.order_for(name),
    )?;
    add_others(alloc, &mut needs, rules, Some(number), targets.items())?;
    Ok(Making {
        phony: is_any_phony(rules, targets.items()),
        targets,
        double: false,
        needs,
        stem: stem_of(alloc, Some(rule), name)?,
        recipe: recipe_of(alloc, Some(rule))?,
        ruled: true,
    })
}

/// The unit of these members of a group, whose rule is this one of this number.
fn group_unit(
    alloc: Global,
    choice: Choice<'_>,
    number: usize,
    rule: &Rule,
    members: Seq<Text>,
) -> Result<Making, NoMemory>
    ensures { let c = choice.entry in IfOk result
        (λ m. m ≡ group_of c.rules.now c.name.now number rule.now members) }
{
    let Choice { rules, name, .. } = choice;
    let mut needs = Seq::new(alloc);
    add_group_needs(alloc, &mut needs, rule, members.items())?;
    add_others(alloc, &mut needs, rules, Some(number), members.items())?;
    Ok(Making {
        phony: is_any_phony(rules, members.items()),
        targets: members,
        double: false,
        needs,
        stem: stem_of(alloc, Some(rule), name)?,
        recipe: recipe_of(alloc, Some(rule))?,
        ruled: true,
    })
}

/// The unit of a name that has its recipe from the rule of this number.
fn ruled_unit(alloc: Global, choice: Choice<'_>, number: usize) -> Result<Making, NoMemory>
    ensures { let c = choice.entry in IfOk result
        (λ m. m ≡ ruled_unit (known_in c.marks.now) c.rules.now c.name.now number) }
{
    let Choice { rules, name, .. } = choice;
    let Some(rule) = rules.get(number) else {
        return bare_unit(alloc, rules, name);
    };
    if !rule.kind.is_grouped() {
        return own_unit(alloc, rules, name, number, rule);
    }
    let members = choice.group(alloc, number)?;
    group_unit(alloc, choice, number, rule, members)
}

/// The unit of a name by the pattern rule that was found for it.
fn pattern_unit(
    alloc: Global,
    choice: Choice<'_>,
    rule: &Rule,
    found: Found,
) -> Result<Making, NoMemory>
    ensures { let c = choice.entry in IfOk result (λ m. m
        ≡ pattern_by (known_in c.marks.now) c.rules.now c.name.now found (Some rule.now)) }
{
    let Choice { rules, name, .. } = choice;
    let targets = choice.pattern(alloc, rule, found.pattern)?;
    let mut needs = Seq::new(alloc);
    add_pattern_needs(alloc, &mut needs, rule, found.pattern, name)?;
    add_others(alloc, &mut needs, rules, None, targets.items())?;
    Ok(Making {
        phony: is_any_phony(rules, targets.items()),
        targets,
        double: false,
        needs,
        stem: found.stem,
        recipe: recipe_of(alloc, Some(rule))?,
        ruled: true,
    })
}

/// What makefiles say, and the working directory against which names are read.
#[derive(Clone, Copy)]
pub(crate) struct RuleContext<'a> {
    pub book: &'a Book,
    pub cwd: &'a Path,
}

impl RuleContext<'_> {
    /// The pattern rule that is chosen for a name without a recipe, unless it is phony.
    fn found_for<T: There>(
        &self,
        alloc: Global,
        name: &[u8],
        there: &mut T,
    ) -> Result<Option<Found>, DeskNo>
        ensures asked { let book = self.now.book.now in Asked T.asks there.old there.new result
            (found_asking book.rules book.patterns self.now.cwd.now name.now) }
        ensures unrefused { IfErr result (λ e. is_refusal e ≡ false) }
    {
        if self.book.rules.is_phony(name) {
            return Ok(None);
        }
        find_by(alloc, self.book, name, self.cwd, there)
    }

    /// The unit of a name without a recipe, for which this pattern rule is chosen, if any is.
    fn found_unit(
        &self,
        alloc: Global,
        choice: Choice<'_>,
        found: Option<Found>,
    ) -> Result<Making, NoMemory>
        requires { choice.rules.now ≡ self.now.book.now.rules }
        ensures { let book = self.now.book.now in let c = choice.entry in IfOk result (λ m. m
            ≡ unruled_unit (known_in c.marks.now) book.rules book.patterns c.name.now found) }
    {
        let Some(found) = found else {
            return bare_unit(alloc, choice.rules, choice.name);
        };
        match self.book.patterns.get(found.rule) {
            None => bare_unit(alloc, choice.rules, choice.name),
            Some(rule) => pattern_unit(alloc, choice, rule, found),
        }
    }

    /// The unit of a name without a recipe.
    fn unruled_unit<T: There>(
        &self,
        alloc: Global,
        choice: Choice<'_>,
        there: &mut T,
    ) -> Result<Making, DeskNo>
        requires { choice.rules.now ≡ self.now.book.now.rules }
        ensures asked { let book = self.now.book.now in let c = choice.entry in
            Asked T.asks there.old there.new result (and_then
            (found_asking book.rules book.patterns self.now.cwd.now c.name.now)
            (unruled_by book.rules book.patterns self.now.cwd.now
            (known_in c.marks.now) c.name.now)) }
        ensures unrefused { IfErr result (λ e. is_refusal e ≡ false) }
    {
        let found = self.found_for(alloc, choice.name, there)?;
        Ok(self.found_unit(alloc, choice, found)?)
    }

    /// The unit of a name that has no double-colon rules.
    fn unit<T: There>(
        &self,
        alloc: Global,
        marks: &Table<VisitMark>,
        name: &[u8],
        there: &mut T,
    ) -> Result<Making, DeskNo>
        ensures asked { let book = self.now.book.now in Asked T.asks there.old there.new result
            (unit_asking book.rules book.patterns self.now.cwd.now (known_in marks.now) name.now) }
        ensures unrefused { IfErr result (λ e. is_refusal e ≡ false) }
    {
        let rules = &self.book.rules;
        let choice = Choice { rules, marks, name };
        let Some(number) = rules.recipe_rule(name) else {
            return self.unruled_unit(alloc, choice, there);
        };
        Ok(ruled_unit(alloc, choice, number)?)
    }

    /// The unit of the name's double-colon rule of this place among its rules, if there is one.
    fn double_at(&self, alloc: Global, name: &[u8], place: usize) -> Result<Option<Making>, DeskNo>
        ensures ok { let rules = self.now.book.now.rules in IfOk result (λ o. o ≡ option_map
            (double_unit rules name.now) (slice_get (numbers_of rules name.now) place)) }
        ensures only { IfErr result (λ e. e ≡ DeskNo.NoMemory) }
    {
        let rules = &self.book.rules;
        let numbers = rules.rules_of(alloc, name)?;
        match numbers.get(place) {
            None => Ok(None),
            Some(number) => Ok(Some(double_unit(alloc, rules, name, *number)?)),
        }
    }

    /// The name's next unit: the first that has no number; `None` exactly where each has one. Where
    /// the name has no unit with a number, no double-colon rules and no rule with a recipe, and
    /// isn't phony, this is asked by the search for a pattern rule, and else nothing.
    ///
    /// A few searches by name for each target. Each prerequisite's name and the recipe are copied
    /// once (what a pattern rule makes four times), and the numbers of a name's double-colon rules
    /// each time.
    fn next_unit<T: There>(
        &self,
        alloc: Global,
        marks: &Table<VisitMark>,
        name: &[u8],
        place: usize,
        there: &mut T,
    ) -> Result<Option<Making>, DeskNo>
        requires { place ≡ length (numbers_in marks.now name.now) }
        ensures next { Offers T.asks there.old there.new result (asks_for self.now
            (known_in marks.now) name.now (length (numbers_in marks.now name.now))) }
        ensures unrefused { IfErr result (λ e. is_refusal e ≡ false) }
    {
        if self.book.rules.is_double(name) {
            return self.double_at(alloc, name, place);
        }
        if place > 0 {
            return Ok(None);
        }
        Ok(Some(self.unit(alloc, marks, name, there)?))
    }

    /// The name's next unit, with fewer than 2^64 prerequisites. The name has jobs for this many.
    pub(crate) fn making_at<T: There>(
        &self,
        alloc: Global,
        marks: &Table<VisitMark>,
        name: &[u8],
        place: usize,
        there: &mut T,
    ) -> Result<Option<Making>, DeskNo>
        requires { place ≡ length (numbers_in marks.now name.now) }
        ensures next { Offers T.asks there.old there.new result (asks_for self.now
            (known_in marks.now) name.now (length (numbers_in marks.now name.now))) }
        ensures few { IfOk result (λ o. IfSome o (λ m. length m.needs < 2 ^ 64)) }
        ensures unrefused { IfErr result (λ e. is_refusal e ≡ false) }
    {
        let making = self.next_unit(alloc, marks, name, place, there)?;
        if let Some(making) = &making {
            let _count = making.needs.len();
        }
        Ok(making)
    }

    /// The same, where it isn't known how many jobs the name has.
    pub(crate) fn making<T: There>(
        &self,
        alloc: Global,
        marks: &Table<VisitMark>,
        name: &[u8],
        there: &mut T,
    ) -> Result<Option<Making>, DeskNo>
        ensures next { Offers T.asks there.old there.new result (asks_for self.now
            (known_in marks.now) name.now (length (numbers_in marks.now name.now))) }
        ensures few { IfOk result (λ o. IfSome o (λ m. length m.needs < 2 ^ 64)) }
        ensures unrefused { IfErr result (λ e. is_refusal e ≡ false) }
    {
        self.making_at(alloc, marks, name, numbers(marks, name).len(), there)
    }
}
