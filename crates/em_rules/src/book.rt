//! All that makefiles say.
ghost use Rattle.std.specs.Prelude.{◌≡◌, ◌<◌, ◌⊎◌, not, map, find, length, slice_get, is_some, None, Some, Ok, Err, MatchOption, IfOk, IfErr, OnOk, OnErr};
ghost use Rattle.std.specs.List.{filter};
ghost use Rattle.em_rules.specs.declared.book.BookNo.{BookNo as Fault};
ghost use Rattle.em_rules.specs.declared.book.BookNo.TheVariants.{NoMemory as OutOfMemory};
ghost use Rattle.em_rules.specs.Rules.{special};
ghost use Rattle.em_rules.specs.Dots.{undotted};
ghost use Rattle.em_rules.specs.Static.{undotted_rule};
ghost use Rattle.em_rules.specs.Books.{new_book, has_other, mixed, line_fault, group_fault, fault_of, unless, is_alike, with_pattern, added};

use crate::dots::undotted;
use crate::made::{explicit, into_target, undotted_rule, unmatched};
use crate::rule::{Rule, RuleKind};
use crate::rules::Rules;
use crate::special::{Special, special_of};
use em_base::{NoMemory, Seq, Text};
use em_vars::Vars;
use std::alloc::Global;
use std::mem;
use thiserror::Error;

/// Why a rule can't be added.
#[derive(Debug, Drop, PartialEq, Eq, Error)]
pub enum BookNo {
    /// A target of a static pattern rule that its target pattern doesn't match.
    #[error("a target doesn't match the target pattern")]
    Static(Text),
    /// The first target of a grouped rule without a recipe.
    #[error("a grouped target needs a recipe")]
    Group(Text),
    /// The first target that has rules of both kinds, double-colon or not.
    #[error("a target has both kinds of rules")]
    Mixed(Text),
    #[error("out of memory")]
    NoMemory,
}

impl From<em_base::NoMemory> for BookNo {
    ghost from_gives = { λ _ e. e ≡ OutOfMemory };

    fn from(_e: em_base::NoMemory) -> BookNo {
        BookNo::NoMemory
    }
}

/// What makefiles say: rules and variables.
#[derive(Drop)]
pub struct Book {
    /// The explicit rules in order. A static pattern rule and a double-colon rule are each a rule
    /// for each of their targets; a grouped static pattern rule is one rule.
    pub rules: Rules,
    /// The pattern rules in order.
    pub patterns: Seq<Rule>,
    pub vars: Vars,
    /// The goal where none is given.
    pub default_goal: Option<Text>,
    /// Whether a makefile was found.
    pub found: bool,
}

/// Whether the rules have the same targets and prerequisites.
fn is_alike(p: &Rule, r: &Rule) -> bool
    ensures { result ≡ is_alike p.now r.now }
{
    p.targets == r.targets && p.normal == r.normal && p.order == r.order
}

/// Takes out the rules that are alike.
fn drop_alike(rules: &mut Vec<Rule>, rule: &Rule)
    ensures { rules.new.items ≡ filter (λ p. not (is_alike p rule.now)) rules.old.items }
{
    rules.retain(|p| !is_alike(p, rule));
}

/// Takes out the pattern rules that are alike.
fn take_alike(alloc: Global, patterns: &mut Seq<Rule>, rule: &Rule)
    ensures { patterns.new ≡ filter (λ p. not (is_alike p rule.now)) patterns.old }
{
    let mut rules = mem::replace(patterns, Seq::new(alloc)).into_vec();
    drop_alike(&mut rules, rule);
    *patterns = Seq::from_vec(rules);
}

/// Adds a pattern rule, or takes out those that are alike where it has no recipe.
fn add_pattern(alloc: Global, patterns: &mut Seq<Rule>, rule: Rule) -> Result<(), NoMemory>
    ensures ok { OnOk result (patterns.new ≡ with_pattern patterns.old rule) }
    ensures err { OnErr result (patterns.new ≡ patterns.old) }
{
    if rule.recipe.is_some() {
        return patterns.push(rule);
    }
    take_alike(alloc, patterns, &rule);
    Ok(())
}

/// Whether there is a rule of the other kind for the name.
fn has_other(kind: RuleKind, rules: &Rules, name: &[u8]) -> bool
    ensures { result ≡ has_other kind rules.now name.now }
{
    if kind.is_double() {
        rules.is_single(name)
    } else {
        rules.is_double(name)
    }
}

/// The place of the first of these targets that has a rule of the other kind.
fn mixed_among(kind: RuleKind, rules: &Rules, targets: &[Text]) -> Option<usize>
    ensures { MatchOption result
        (find (has_other kind rules.now) (map undotted targets.now) ≡ None)
        (λ i. (i < length targets.now)
        × (find (has_other kind rules.now) (map undotted targets.now)
        ≡ slice_get (map undotted targets.now) i)) }
{
    for (i, target) in targets.iter().enumerate() {
        if has_other(kind, rules, undotted(target.bytes())) {
            return Some(i);
        }
    }
    None
}

/// The place of the first target that has a rule of the other kind; of no pattern rule.
fn mixed(rules: &Rules, r: &Rule) -> Option<usize>
    ensures { MatchOption result
        (mixed rules.now (undotted_rule r.now) ≡ None)
        (λ i. (i < length r.now.targets)
        × (mixed rules.now (undotted_rule r.now)
        ≡ slice_get (map undotted r.now.targets) i)) }
{
    if r.pattern {
        return None;
    }
    mixed_among(r.kind, rules, r.targets.items())
}

/// Whether the rule is grouped and has a target, but no recipe.
pub fn lacks_recipe(r: &Rule) -> bool
    ensures { result ≡ is_some (group_fault (undotted_rule r.now)) }
{
    r.kind.is_grouped() && r.recipe.is_none() && !r.targets.is_empty()
}

impl Book {
    /// The book of no makefile.
    pub fn new(alloc: Global) -> Result<Book, NoMemory>
        ensures { result ≡ Ok new_book }
    {
        Ok(Book {
            rules: Rules::new(alloc),
            patterns: Seq::new(alloc),
            vars: Vars::new(alloc)?,
            default_goal: None,
            found: false,
        })
    }

    /// The rule, unless its line is faulty: a target that its target pattern doesn't match, or else
    /// one that has a rule of the other kind, with the first such target. Pattern rules have no
    /// rules of the other kind. No memory. A search for each target.
    pub fn judged(&self, r: Rule) -> Result<Rule, BookNo>
        ensures { result ≡ unless (line_fault self.now.rules r) r }
    {
        if let Some(at) = unmatched(&r) {
            return Err(BookNo::Static(into_target(r, at)));
        }
        if let Some(at) = mixed(&self.rules, &r) {
            return Err(BookNo::Mixed(into_target(r, at)));
        }
        Ok(r)
    }

    /// The rule that is whole, unless it is faulty: its line, or it is grouped and has no recipe.
    fn judged_whole(&self, r: Rule) -> Result<Rule, BookNo>
        ensures ok { IfOk result (λ k. (fault_of self.now.rules r ≡ None) × (k ≡ r)) }
        ensures err { IfErr result (λ e. fault_of self.now.rules r ≡ Some e) }
    {
        let r = self.judged(r)?;
        if lacks_recipe(&r) {
            return Err(BookNo::Group(into_target(r, 0)));
        }
        Ok(r)
    }

    /// Adds a rule, behind all others; its names are taken without the `./` that they begin with.
    ///
    /// - A static pattern rule comes to one rule for each target, whose prerequisites are made from
    ///   what the target has for the `%` of the target pattern, which may be empty; a grouped one
    ///   stays one, with the prerequisites of its targets in a row. `Static` comes exactly where a
    ///   target doesn't match, with the first such target.
    /// - A double-colon rule comes to one rule for each target.
    /// - `Mixed` comes else exactly where the rule is no pattern rule and a target has a rule of
    ///   the other kind, double-colon or not, with the first such target.
    /// - `Group` comes else exactly where a grouped rule with a target has no recipe, with the
    ///   first target; of pattern rules, too.
    /// - A pattern rule with a recipe goes to the pattern rules; one without takes out those with
    ///   the same targets and prerequisites, and isn't kept.
    ///
    /// These faults come also where memory is short. A search for each target, and two for each
    /// name in the rules that it comes to; none for a pattern rule, which is compared with each
    /// pattern rule where it has no recipe.
    pub fn add(&mut self, r: Rule) -> Result<(), BookNo>
        ensures ok { IfOk result
            (λ _. (fault_of self.old.rules r ≡ None) × (self.new ≡ added self.old r)) }
        ensures only { IfErr result
            (λ e. (e ≡ BookNo.NoMemory) ⊎ (fault_of self.old.rules r ≡ Some e)) }
        ensures known { (e : Fault) → fault_of self.old.rules r ≡ Some e → result ≡ Err e }
        ensures err { OnErr result (self.new ≡ self.old) }
    {
        let r = self.judged_whole(r)?;
        let alloc = self.rules.alloc();
        let rule = undotted_rule(alloc, r)?;
        if rule.pattern {
            add_pattern(alloc, &mut self.patterns, rule)?;
        } else {
            self.rules.add(explicit(alloc, rule)?)?;
        }
        Ok(())
    }

    /// What the special targets say.
    pub fn special(&self, alloc: Global) -> Result<Special, NoMemory>
        ensures { IfOk result (λ s. s ≡ special self.now.rules) }
    {
        special_of(alloc, &self.rules)
    }
}
