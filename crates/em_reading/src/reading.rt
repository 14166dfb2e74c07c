//! What was read so far, and what a line does to it without asking anything.
ghost use Rattle.std.specs.Prelude.{◌≡◌, None, IfOk};
ghost use Rattle.em_reading.specs.Changes as changes;
ghost use Rattle.em_reading.specs.Changes.{is_read, without_evals};
ghost use Rattle.em_reading.specs.Faults.{is_free};
ghost use Rattle.em_view.specs.Steps.{Works};

use crate::no::{MakefileFault, ReadNo, at};
use crate::noted::Noted;
use em_base::{NoMemory, Place, Seq, Text};
use em_cond::Nest;
use em_expand::Spoken;
use em_lines::Line;
use em_path::Path;
use em_rules::{Book, Rule};
use em_statement::Assignment;
use std::alloc::Global;
use std::mem;

/// A `define` whose `endef` hasn't come.
#[derive(Drop)]
pub struct OpenDefine {
    /// Its line.
    pub place: Place,
    /// Its name and operator.
    pub assignment: Assignment,
    /// How many `define` are open within it.
    pub nested: u64,
    /// The lines of its body, joined by newlines; `None` before the first one.
    pub text: Option<Text>,
}

/// What was read so far.
#[derive(Drop)]
pub struct Reading {
    /// The working directory.
    pub cwd: Path,
    pub book: Book,
    /// The conditionals that are open.
    pub nest: Nest,
    /// Their lines, the outermost first.
    pub opened: Seq<Place>,
    /// The rule whose recipe lines may follow.
    pub begun: Option<Rule>,
    /// How many of the open conditionals were open when the last rule began: the outermost ones.
    pub around: usize,
    /// The `define` whose body is read.
    pub define: Option<OpenDefine>,
    /// What was said, and the texts for `eval` that aren't read yet.
    pub spoken: Spoken,
    /// The files that were read and those that aren't there, where these are noted.
    pub noted: Option<Noted>,
}

/// An equal assignment.
fn copied(alloc: Global, assignment: &Assignment) -> Result<Assignment, NoMemory>
    ensures { IfOk result (λ a. a ≡ assignment.now) }
{
    Ok(Assignment {
        modifiers: assignment.modifiers,
        name: assignment.name.copy(alloc)?,
        operator: assignment.operator,
        value: assignment.value.copy(alloc)?,
    })
}

impl Reading {
    /// Whether lines are read: each open conditional is in the branch that is.
    pub fn is_read(&self) -> bool
        ensures { result ≡ is_read self.now }
    {
        self.nest.active()
    }

    /// Opens a conditional.
    pub fn enter(&mut self, alloc: Global, place: &Place, holds: bool) -> Result<(), ReadNo>
        ensures { Works is_free self.old self.new result (changes.enter place.now holds) }
    {
        self.opened.push(place.copy(alloc)?)?;
        match self.nest.enter(holds) {
            Ok(()) => Ok(()),
            Err(_) => Err(ReadNo::NoMemory),
        }
    }

    /// The next branch of the innermost conditional.
    pub fn other(
        &mut self,
        alloc: Global,
        place: &Place,
        condition: Option<bool>,
    ) -> Result<(), ReadNo>
        ensures { Works is_free self.old self.new result (changes.other place.now condition) }
    {
        match self.nest.other(condition) {
            Ok(()) => Ok(()),
            Err(_) => Err(at(alloc, place, MakefileFault::Conditional)),
        }
    }

    /// Closes the innermost conditional.
    pub fn leave(&mut self, alloc: Global, place: &Place) -> Result<(), ReadNo>
        ensures { Works is_free self.old self.new result (changes.leave place.now) }
    {
        match self.nest.leave() {
            Ok(()) => {
                let mut opened = mem::replace(&mut self.opened, Seq::new(alloc)).into_vec();
                opened.truncate(opened.len().saturating_sub(1));
                self.opened = Seq::from_vec(opened);
                self.around = self.around.min(self.opened.len());
                Ok(())
            }
            Err(_) => Err(at(alloc, place, MakefileFault::Conditional)),
        }
    }

    /// Begins a `define`.
    pub fn begin_define(
        &mut self,
        alloc: Global,
        place: &Place,
        assignment: &Assignment,
    ) -> Result<(), ReadNo>
        ensures { Works is_free self.old self.new result
            (changes.begin_define place.now assignment.now) }
    {
        self.define = Some(OpenDefine {
            place: place.copy(alloc)?,
            assignment: copied(alloc, assignment)?,
            nested: 0,
            text: None,
        });
        Ok(())
    }

    /// A `define` in a branch that is read ends the rule before it; it is passed over elsewhere.
    pub fn define_line(
        &mut self,
        alloc: Global,
        place: &Place,
        assignment: &Assignment,
    ) -> Result<(), ReadNo>
        ensures { Works is_free self.old self.new result
            (changes.define_line place.now assignment.now) }
    {
        if !self.is_read() {
            return Ok(());
        }
        self.close_rule(alloc)?;
        self.begin_define(alloc, place, assignment)
    }

    /// A line of the body of a `define`.
    pub fn body_line(&mut self, alloc: Global, body: OpenDefine, line: &Line) -> Result<(), ReadNo>
        ensures { Works is_free self.old self.new result (changes.body_line body line.now) }
    {
        self.define = Some(body.with_line(alloc, line)?);
        Ok(())
    }

    /// The `define` whose body is read, taken out.
    pub fn take_define(&mut self) -> Option<OpenDefine>
        ensures result { result ≡ self.old.define }
        ensures state { self.new ≡ record self.old { define = None } }
    {
        mem::replace(&mut self.define, None)
    }

    /// A text ends in front of a line that is too long, or at its end, where no `define` may be
    /// open.
    pub fn end_text(&mut self, alloc: Global, too_long: &Option<Place>) -> Result<(), ReadNo>
        ensures { Works is_free self.old self.new result (changes.end_text too_long.now) }
    {
        if let Some(place) = too_long {
            return Err(at(alloc, place, MakefileFault::Limit));
        }
        match &self.define {
            None => Ok(()),
            Some(body) => Err(at(alloc, &body.place, MakefileFault::Define)),
        }
    }

    /// At the end no conditional is open.
    pub fn end_conditionals(&mut self, alloc: Global) -> Result<(), ReadNo>
        ensures { Works is_free self.old self.new result changes.end_conditionals }
    {
        match self.opened.get(0) {
            None => Ok(()),
            Some(place) => Err(at(alloc, place, MakefileFault::Endless)),
        }
    }

    /// The texts for `eval` that aren't read yet.
    pub fn take_evals(&mut self, alloc: Global) -> Seq<Text>
        ensures result { result ≡ self.old.spoken.evals }
        ensures state { self.new ≡ without_evals self.old }
    {
        mem::replace(&mut self.spoken.evals, Seq::new(alloc))
    }
}
