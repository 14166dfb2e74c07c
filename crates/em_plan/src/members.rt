//! The targets of a unit.
ghost use Rattle.std.specs.Prelude.{◌≡◌, ◌++◌, ◌∷◌, [], IfOk, OnOk};
ghost use Rattle.std.specs.List.{filter};
ghost use Rattle.em_rules.specs.Rules.{is_in};
ghost use Rattle.em_implicit.specs.Matches.{match_at};
ghost use Rattle.em_plan.specs.Makings.{group_names, joins, pattern_names, pattern_targets, stays, with_own};
ghost use Rattle.em_plan.specs.Resuming.{known_in};

use crate::goals::each_once;
use crate::marks::{VisitMark, is_known};
use em_base::{NoMemory, Seq, Table, Text};
use em_implicit::{match_at, members_of};
use em_rules::{Rule, Rules};
use std::alloc::Global;

/// A list of one name.
pub(crate) fn alone(alloc: Global, name: &[u8]) -> Result<Seq<Text>, NoMemory>
    ensures { IfOk result (λ s. s ≡ name.now ∷ []) }
{
    let mut names = Seq::new(alloc);
    names.push(Text::from_slice(alloc, name)?)?;
    Ok(names)
}

/// Whether the name is one of these.
fn is_in(names: &[Text], name: &[u8]) -> bool
    ensures { result ≡ is_in names.now name.now }
{
    names.iter().any(|other| other.bytes() == name)
}

/// The targets with the name, which is one of them.
fn with_own(alloc: Global, name: &[u8], names: Seq<Text>) -> Result<Seq<Text>, NoMemory>
    ensures { IfOk result (λ s. s ≡ with_own name.now names) }
{
    if is_in(names.items(), name) {
        return Ok(names);
    }
    let mut names = names.into_vec();
    names.insert(0, Text::from_slice(alloc, name)?)?;
    Ok(Seq::from_vec(names))
}

/// A name and what is known of others, by which its unit's targets are chosen.
#[derive(Clone, Copy)]
pub(crate) struct Choice<'a> {
    pub rules: &'a Rules,
    pub marks: &'a Table<VisitMark>,
    pub name: &'a [u8],
}

impl Choice<'_> {
    /// Whether a member of the name's group is made with it.
    fn joins(&self, member: &[u8]) -> bool
        ensures { result ≡ joins (known_in self.now.marks.now) self.now.name.now member.now }
    {
        member == self.name || !is_known(self.marks, member)
    }

    /// Appends the member, if it is made with the name.
    fn add_member(&self, names: &mut Seq<Text>, member: Text) -> Result<(), NoMemory>
        ensures { OnOk result (names.new ≡ names.old
            ++ filter (joins (known_in self.now.marks.now) self.now.name.now) (member ∷ [])) }
    {
        if self.joins(member.bytes()) {
            names.push(member)?;
        }
        Ok(())
    }

    /// The members of the name's group, whose rule has this number. Two searches for each target of
    /// the rule.
    pub(crate) fn group(&self, alloc: Global, number: usize) -> Result<Seq<Text>, NoMemory>
        ensures { IfOk result (λ s. s ≡ group_names (known_in self.now.marks.now)
            self.now.rules.now self.now.name.now number) }
    {
        let mut names = Seq::new(alloc);
        for member in self.rules.members(alloc, number)?.into_vec() {
            self.add_member(&mut names, member)?;
        }
        with_own(alloc, self.name, names)
    }

    /// Whether what a pattern rule makes beside the name is made with it.
    fn stays(&self, member: &[u8]) -> bool
        ensures { result ≡ stays (known_in self.now.marks.now) self.now.rules.now
            self.now.name.now member.now }
    {
        member == self.name
            || !(self.rules.recipe_rule(member).is_some()
                || self.rules.is_double(member)
                || is_known(self.marks, member))
    }

    /// Appends what a pattern rule makes, if it is made with the name.
    fn add_made(&self, names: &mut Seq<Text>, member: Text) -> Result<(), NoMemory>
        ensures { OnOk result (names.new ≡ names.old
            ++ filter (stays (known_in self.now.marks.now) self.now.rules.now
            self.now.name.now) (member ∷ [])) }
    {
        if self.stays(member.bytes()) {
            names.push(member)?;
        }
        Ok(())
    }

    /// Those of the names that are made with the name.
    fn staying(&self, alloc: Global, made: &[Text]) -> Result<Seq<Text>, NoMemory>
        ensures { IfOk result (λ s. s ≡ pattern_names (known_in self.now.marks.now)
            self.now.rules.now self.now.name.now made.now) }
    {
        let mut names = Seq::new(alloc);
        for member in each_once(alloc, made)?.into_vec() {
            self.add_made(&mut names, member)?;
        }
        with_own(alloc, self.name, names)
    }

    /// What a pattern rule makes, where the name matches its target pattern of this number: the
    /// name alone where it has no other. A few searches for each target pattern.
    pub(crate) fn pattern(
        &self,
        alloc: Global,
        rule: &Rule,
        pattern: usize,
    ) -> Result<Seq<Text>, NoMemory>
        ensures { IfOk result (λ s. s ≡ pattern_targets (known_in self.now.marks.now)
            self.now.rules.now self.now.name.now rule.now
            (match_at rule.now pattern self.now.name.now)) }
    {
        if rule.targets.len() < 2 {
            return alone(alloc, self.name);
        }
        match match_at(rule, pattern, self.name) {
            None => self.staying(alloc, &[]),
            Some(found) => self.staying(alloc, members_of(alloc, rule, found)?.items()),
        }
    }
}
