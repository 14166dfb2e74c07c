//! Rules in order, found by name.
ghost use Rattle.std.specs.Prelude.{◌≡◌, ◌==◌, ◌++◌, ◌∷◌, ◌&&◌, ◌||◌, [], ℕ, List, length, filter, slice_get, option_copied, is_some, IfOk, OnOk, OnErr, if◌then◌else◌};
ghost use Rattle.std.specs.FinMap as table;
ghost use Rattle.std.specs.Str.{bytes_eq};
ghost use Rattle.em_rules.specs.Rules.{numbers_of, recipe_rule, is_mentioned, is_phony, is_target, prerequisites_of};
ghost use Rattle.em_rules.specs.Groups.{is_double, is_single, is_made_by, each_once, members_at};

use crate::rule::Rule;
use crate::uses::{self, Uses, with_rules};
use crate::walk;
use em_base::{NoMemory, Seq, Table, Text};
use std::alloc::Global;
use std::marker::Model;

/// The explicit rules of a makefile, in order. Contracts see the list of them. A rule's number is
/// its place, counted from 0.
///
/// An index by name answers each question about a name in one search by its hash. Where memory ran
/// out in `add` there is no index from then on, and an answer takes steps for each name in the
/// rules.
#[derive(Drop)]
pub struct Rules {
    alloc: Global,
    held: Vec<Rule>,
    index: Option<Table<Uses>>,
}

impl Model for Rules {
    ghost use Rattle.std.specs.Prelude.{List};
    ghost use Rattle.std.specs.Option.{ForSome};
    ghost use Rattle.std.specs.Coded.{coded_list};
    ghost use Rattle.em_rules.specs.contracts.rule.Rule as rule;
    ghost use Rattle.em_rules.specs.declared.rule.Rule.{Rule};
    ghost use Rattle.em_rules.specs.Index.{Tells};

    ghost Value = { List Rule };

    ghost coded = { coded_list rule.the_row.coded };

    ghost view = { λ r. r.held.items };

    ghost invariant = { λ r. ForSome r.index (λ index. Tells index r.held.items) };
}

impl Rules {
    /// No rules.
    pub fn new(alloc: Global) -> Rules
        ensures { result ≡ [] }
    {
        Rules {
            alloc,
            held: Vec::new(alloc),
            index: Some(Table::new(alloc)),
        }
    }

    /// The rules.
    pub fn items(&self) -> &[Rule]
        ensures { result.now ≡ self.now }
    {
        self.held.as_slice()
    }

    /// How many rules there are.
    pub fn len(&self) -> usize
        ensures { result ≡ length self.now }
    {
        self.held.len()
    }

    /// Whether there is none.
    pub fn is_empty(&self) -> bool
        ensures { result ≡ length self.now == 0 }
    {
        self.len() == 0
    }

    /// The rule of this number; `None` exactly where there are not so many.
    pub fn get(&self, number: usize) -> Option<&Rule>
        ensures { option_copied result ≡ slice_get self.now number }
    {
        self.held.get(number)
    }

    /// Where the rules' memory comes from.
    pub(crate) fn alloc(&self) -> Global {
        self.alloc
    }

    /// Appends rules, with two searches for each name in them.
    pub(crate) fn add(&mut self, mut rules: Vec<Rule>) -> Result<(), NoMemory>
        ensures ok { OnOk result (self.new ≡ self.old ++ rules.items) }
        ensures err { OnErr result (self.new ≡ self.old) }
    {
        let first = self.held.len();
        if first.checked_add(rules.len()).is_none() {
            return Err(NoMemory);
        }
        let index = with_rules(self.alloc, self.index.take(), first, rules.as_slice())?;
        self.held.append(&mut rules)?;
        self.index = index;
        Ok(())
    }

    /// The numbers of the rules for a name, those whose targets hold it, in order. One search, and
    /// a copy of the numbers.
    pub fn rules_of(&self, alloc: Global, name: &[u8]) -> Result<Seq<usize>, NoMemory>
        ensures { IfOk result (λ s. s ≡ numbers_of self.now name.now) }
    {
        match &self.index {
            Some(index) => uses::numbers(alloc, index, name),
            None => walk::numbers(alloc, self.held.as_slice(), name),
        }
    }

    /// The number of the last rule for a name that has a recipe: its recipe is the name's. One
    /// search.
    pub fn recipe_rule(&self, name: &[u8]) -> Option<usize>
        ensures { result ≡ recipe_rule self.now name.now }
    {
        match &self.index {
            Some(index) => uses::recipe(index, name),
            None => walk::recipe(self.held.as_slice(), name),
        }
    }

    /// Whether the name is a target or a prerequisite of a rule. One search.
    pub fn is_mentioned(&self, name: &[u8]) -> bool
        ensures { result ≡ is_mentioned self.now name.now }
    {
        match &self.index {
            Some(index) => uses::is_used(index, name),
            None => walk::is_mentioned(self.held.as_slice(), name),
        }
    }

    /// Whether the name is a target of a rule. One search.
    pub fn is_target(&self, name: &[u8]) -> bool
        ensures { result ≡ is_target self.now name.now }
    {
        match &self.index {
            Some(index) => uses::is_target(index, name),
            None => walk::is_target(self.held.as_slice(), name),
        }
    }

    /// Whether there is a double-colon rule for the name. One search.
    pub fn is_double(&self, name: &[u8]) -> bool
        ensures { result ≡ is_double self.now name.now }
    {
        match &self.index {
            Some(index) => uses::is_double(index, name),
            None => walk::is_double(self.held.as_slice(), name),
        }
    }

    /// Whether there is a rule for the name that is no double-colon rule. One search.
    pub fn is_single(&self, name: &[u8]) -> bool
        ensures { result ≡ is_single self.now name.now }
    {
        match &self.index {
            Some(index) => uses::is_single(index, name),
            None => walk::is_single(self.held.as_slice(), name),
        }
    }

    /// Whether the name has its recipe from the rule of this number.
    fn is_made_by(&self, number: usize, name: &[u8]) -> bool
        ensures { result ≡ is_made_by self.now number name.now }
    {
        match self.recipe_rule(name) {
            Some(rule) => number == rule,
            None => false,
        }
    }

    /// Appends the target, where it has its recipe from the rule of this number and wasn't among
    /// the members yet; `told` has those that were.
    fn add_member(
        &self,
        alloc: Global,
        members: &mut Seq<Text>,
        told: &mut Table<()>,
        number: usize,
        target: &Text,
    ) -> Result<(), NoMemory>
        ensures members { OnOk result (members.new ≡ members.old
            ++ (if is_some (table.get told.old target.now) then []
            else if is_made_by self.now number target.now then target.now ∷ [] else [])) }
        ensures told { OnOk result ((q : List ℕ) → is_some (table.get told.new q)
            ≡ (is_some (table.get told.old q)
            || (bytes_eq target.now q && is_made_by self.now number q))) }
    {
        if told.get(target.bytes()).is_some() || !self.is_made_by(number, target.bytes()) {
            return Ok(());
        }
        members.push(target.copy(alloc)?)?;
        told.insert(target.copy(alloc)?, ())?;
        Ok(())
    }

    /// Those of the targets that have their recipe from the rule of this number, each once.
    fn members_among(
        &self,
        alloc: Global,
        number: usize,
        targets: &[Text],
    ) -> Result<Seq<Text>, NoMemory>
        ensures { IfOk result
            (λ s. s ≡ filter (is_made_by self.now number) (each_once targets.now)) }
    {
        let mut members = Seq::new(alloc);
        let mut told = Table::new(alloc);
        for target in targets {
            self.add_member(alloc, &mut members, &mut told, number, target)?;
        }
        Ok(members)
    }

    /// Those of the targets of the rule of this number that have their recipe from it, each once: a
    /// later rule with a recipe takes its targets out of a group. None where there is no such rule,
    /// or it has no recipe. Up to three searches for each target, and two copies of each.
    pub fn members(&self, alloc: Global, number: usize) -> Result<Seq<Text>, NoMemory>
        ensures { IfOk result (λ s. s ≡ members_at self.now number) }
    {
        match self.held.get(number) {
            Some(rule) => self.members_among(alloc, number, rule.targets.items()),
            None => Ok(Seq::new(alloc)),
        }
    }

    /// Whether the name is a prerequisite of `.PHONY`. One search.
    pub fn is_phony(&self, name: &[u8]) -> bool
        ensures { result ≡ is_phony self.now name.now }
    {
        match &self.index {
            Some(index) => uses::is_phony(index, name),
            None => walk::is_phony(self.held.as_slice(), name),
        }
    }

    /// The prerequisites of the rules for a name, rule by rule, each rule's normal ones before its
    /// order-only ones. One search, and a copy of each.
    pub fn prerequisites_of(&self, alloc: Global, name: &[u8]) -> Result<Seq<Text>, NoMemory>
        ensures { IfOk result (λ s. s ≡ prerequisites_of self.now name.now) }
    {
        let numbers = self.rules_of(alloc, name)?;
        walk::prerequisites(alloc, self.held.as_slice(), numbers.items())
    }
}
