//! Rules that are begun and closed.
ghost use Rattle.std.specs.Prelude.{◌≡◌, ◌++◌, ◌||◌, ◌&&◌, [], ℕ, List, is_some, IfOk, OnOk, if◌then◌else◌};
ghost use Rattle.std.specs.List.{flat_map};
ghost use Rattle.std.specs.Str.{bytes_eq};
ghost use Rattle.std.specs.FinMap as table;
ghost use Rattle.em_rules.specs.Rules.{recipe_rule};
ghost use Rattle.em_rules.specs.Groups.{each_once};
ghost use Rattle.em_rules.specs.Books.{fault_of};
ghost use Rattle.em_reading.specs.Changes as changes;
ghost use Rattle.em_reading.specs.Changes.{warning, warning_for, warnings, with_line, recipe_line, is_held};
ghost use Rattle.em_reading.specs.Faults.{is_free};
ghost use Rattle.em_view.specs.Steps.{Works};

use crate::no::{MakefileFault, ReadNo, RuleNo, at, book_fault};
use crate::reading::Reading;
use em_base::{NoMemory, Place, Seq, Table, Text};
use em_lines::{Line, folded_references};
use em_rules::{Book, RecipeLine, Rule, lacks_recipe, undotted_rule};
use itoa::Buffer;
use std::alloc::Global;
use std::mem;

/// Appends `FILE:LINE: warning: overriding recipe for target 'T'`.
fn add_warning(text: &mut Text, place: &Place, target: &[u8]) -> Result<(), NoMemory>
    ensures { OnOk result (text.new ≡ text.old ++ warning place.now target.now) }
{
    let mut buffer = Buffer::new();
    text.add(place.file.bytes())?;
    text.add(b":")?;
    text.add(buffer.format(place.line).as_bytes())?;
    text.add(b": warning: overriding recipe for target '")?;
    text.add(target)?;
    text.add(b"'\n")
}

/// Appends the warning for a target that has a recipe already, unless it was told of. The table has
/// the targets that were.
fn add_warning_for(
    alloc: Global,
    text: &mut Text,
    told: &mut Table<()>,
    book: &Book,
    place: &Place,
    target: &[u8],
) -> Result<(), NoMemory>
    ensures said { OnOk result (text.new ≡ text.old
        ++ (if is_some (table.get told.old target.now) then []
        else warning_for book.now place.now target.now)) }
    ensures told { OnOk result ((q : List ℕ) → is_some (table.get told.new q)
        ≡ (is_some (table.get told.old q)
        || (bytes_eq target.now q && is_some (recipe_rule book.now.rules q)))) }
{
    if told.get(target).is_some() || book.rules.recipe_rule(target).is_none() {
        return Ok(());
    }
    add_warning(text, place, target)?;
    told.insert(Text::from_slice(alloc, target)?, ())?;
    Ok(())
}

/// Appends the warnings for these targets, one for each, where it first stands. Two searches for
/// each target.
fn add_warnings(
    alloc: Global,
    text: &mut Text,
    book: &Book,
    place: &Place,
    targets: &[Text],
) -> Result<(), NoMemory>
    ensures { OnOk result
        (text.new ≡ text.old ++ flat_map (warning_for book.now place.now) (each_once targets.now)) }
{
    let mut told = Table::new(alloc);
    for target in targets {
        add_warning_for(alloc, text, &mut told, book, place, target.bytes())?;
    }
    Ok(())
}

/// Appends the warnings for a rule.
fn warn(alloc: Global, text: &mut Text, book: &Book, rule: &Rule) -> Result<(), NoMemory>
    ensures { OnOk result (text.new ≡ text.old ++ warnings book.now rule.now) }
{
    if rule.recipe.is_none() || rule.kind.is_double() {
        return Ok(());
    }
    add_warnings(alloc, text, book, &rule.place, rule.targets.items())
}

/// The rule with one recipe line more.
fn with_line(alloc: Global, rule: Rule, line: RecipeLine) -> Result<Rule, NoMemory>
    ensures { IfOk result (λ r. r ≡ with_line rule line) }
{
    let Rule {
        targets,
        kind,
        pattern,
        form,
        normal,
        order,
        recipe,
        place,
    } = rule;
    let mut lines = match recipe {
        Some(lines) => lines,
        None => Seq::new(alloc),
    };
    lines.push(line)?;
    let recipe = Some(lines);
    Ok(Rule {
        targets,
        kind,
        pattern,
        form,
        normal,
        order,
        recipe,
        place,
    })
}

/// The line as one of a recipe: what is continued within a reference is joined.
fn recipe_line(alloc: Global, line: &Line) -> Result<RecipeLine, NoMemory>
    ensures { IfOk result (λ l. l ≡ recipe_line line.now) }
{
    Ok(RecipeLine {
        place: line.place.copy(alloc)?,
        text: folded_references(alloc, line.text.bytes())?,
    })
}

impl Reading {
    /// Adds a rule that is whole, with its warnings.
    fn add_rule(&mut self, alloc: Global, rule: Rule) -> Result<(), ReadNo>
        ensures { Works is_free self.old self.new result
            (changes.add_rule rule (fault_of self.old.book.rules rule)) }
    {
        warn(alloc, &mut self.spoken.said, &self.book, &rule)?;
        let place = rule.place.copy(alloc)?;
        match self.book.add(rule) {
            Ok(()) => Ok(()),
            Err(e) => Err(book_fault(place, e)),
        }
    }

    /// The rule whose recipe lines could follow is whole.
    pub fn close_rule(&mut self, alloc: Global) -> Result<(), ReadNo>
        ensures { Works is_free self.old self.new result changes.close_rule }
    {
        match mem::replace(&mut self.begun, None) {
            None => Ok(()),
            Some(rule) => self.add_rule(alloc, rule),
        }
    }

    /// Begins a rule, whose recipe lines may follow, unless its line is faulty.
    pub fn begin_rule(&mut self, alloc: Global, rule: Rule) -> Result<(), ReadNo>
        ensures { Works is_free self.old self.new result (changes.begin_rule rule) }
    {
        let place = rule.place.copy(alloc)?;
        match self.book.judged(rule) {
            Ok(rule) => {
                self.begun = Some(undotted_rule(alloc, rule)?);
                self.around = self.opened.len();
                Ok(())
            }
            Err(e) => Err(book_fault(place, e)),
        }
    }

    /// Whether the rule that is begun is grouped and lacks its recipe, and a conditional that was
    /// open before it still is.
    fn is_held(&self) -> bool
        ensures { result ≡ is_held self.now }
    {
        match &self.begun {
            Some(rule) => lacks_recipe(rule) && 0 < self.around,
            None => false,
        }
    }

    /// The last rule is whole. Where a grouped rule lacks its recipe in a conditional that is open,
    /// the conditional is the earlier fault.
    pub fn end_rule(&mut self, alloc: Global) -> Result<(), ReadNo>
        ensures { Works is_free self.old self.new result changes.end_rule }
    {
        if self.is_held()
            && let Some(place) = self.opened.get(0)
        {
            return Err(at(alloc, place, MakefileFault::Endless));
        }
        self.close_rule(alloc)
    }

    /// A line that begins with a tab: one of the recipe of the rule before it.
    pub fn recipe(&mut self, alloc: Global, line: &Line) -> Result<(), ReadNo>
        ensures { Works is_free self.old self.new result (changes.recipe line.now) }
    {
        if !self.is_read() {
            return Ok(());
        }
        match mem::replace(&mut self.begun, None) {
            None => Err(at(alloc, &line.place, MakefileFault::Rule(RuleNo::Recipe))),
            Some(rule) => {
                let rule = with_line(alloc, rule, recipe_line(alloc, line)?)?;
                self.begun = Some(rule);
                Ok(())
            }
        }
    }
}
