//! The default goal.
ghost use Rattle.std.specs.Prelude.{◌≡◌, find, option_copied, IfOk};
ghost use Rattle.em_reading.specs.Faults.{is_free};
ghost use Rattle.em_reading.specs.Start as ends;
ghost use Rattle.em_reading.specs.Start.{first_goal, goal_of, is_goal};
ghost use Rattle.em_view.specs.Steps.{Works};

use crate::no::ReadNo;
use crate::reading::Reading;
use em_base::{NoMemory, Text, trim};
use em_rules::{Book, Rule};
use em_statement::is_empty;
use std::alloc::Global;

/// Whether a target can be the default goal: it holds no `%`, and where it begins with a dot it
/// holds a slash.
fn is_goal(target: &Text) -> bool
    ensures { result ≡ is_goal target.now }
{
    let name = target.bytes();
    (name.first() != Some(&b'.') || name.contains(&b'/')) && !name.contains(&b'%')
}

/// The first target of a rule that can be the default goal.
fn goal_in(rule: &Rule) -> Option<&Text>
    ensures { option_copied result ≡ find is_goal rule.now.targets }
{
    rule.targets.items().iter().find(|t| is_goal(t))
}

/// The first target that can be the default goal.
fn first_goal(rules: &[Rule]) -> Option<&Text>
    ensures { option_copied result ≡ first_goal rules.now }
{
    for rule in rules {
        let goal = goal_in(rule);
        if goal.is_some() {
            return goal;
        }
    }
    None
}

/// The default goal, where `.DEFAULT_GOAL` has this text.
fn goal_of(alloc: Global, book: &Book, text: &[u8]) -> Result<Option<Text>, NoMemory>
    ensures { IfOk result (λ g. g ≡ goal_of book.now text.now) }
{
    if !is_empty(text) {
        return Ok(Some(Text::from_slice(alloc, trim(text))?));
    }
    match first_goal(book.rules.items()) {
        Some(target) => Ok(Some(target.copy(alloc)?)),
        None => Ok(None),
    }
}

impl Reading {
    /// The default goal, where `.DEFAULT_GOAL` has this text.
    pub fn set_goal(&mut self, alloc: Global, text: &[u8]) -> Result<(), ReadNo>
        ensures { Works is_free self.old self.new result (ends.set_goal text.now) }
    {
        self.book.default_goal = goal_of(alloc, &self.book, text)?;
        Ok(())
    }
}
