//! Conditions, when their texts are expanded.
ghost use Rattle.std.specs.Prelude.{◌≡◌, IfOk};
ghost use Rattle.em_reading.specs.Heard as acting;
ghost use Rattle.em_reading.specs.Heard.{holds, one_has_text};
ghost use Rattle.em_reading.specs.Faults.{is_free};
ghost use Rattle.em_view.specs.Steps.{Works};
ghost use Rattle.em_wordlist.specs.Words.{words_of};

use crate::assign::refused_in;
use crate::heard::Heard;
use crate::no::{MakefileFault, ReadNo, at, refused};
use crate::reading::Reading;
use crate::vars::has_text;
use em_base::{NoMemory, Place};
use em_statement::Condition;
use em_vars::Vars;
use em_wordlist::texts;
use std::alloc::Global;

/// Whether the variable of the one name in the text has a text that isn't empty; `None` where there
/// isn't exactly one name.
fn one_has_text(alloc: Global, vars: &Vars, text: &[u8]) -> Result<Option<bool>, NoMemory>
    ensures { IfOk result (λ b. b ≡ one_has_text vars.now (words_of text.now)) }
{
    let names = texts(alloc, text)?;
    match names.as_slice() {
        [name] => Ok(Some(has_text(vars, name))),
        _ => Ok(None),
    }
}

/// Whether the condition holds; `None` where it isn't of the form.
fn holds(
    alloc: Global,
    vars: &Vars,
    condition: &Condition,
    heard: &Heard,
) -> Result<Option<bool>, NoMemory>
    ensures { IfOk result (λ b. b ≡ holds vars.now condition.now heard.now) }
{
    let first = heard.first.text.bytes();
    let second = heard.second.text.bytes();
    match condition {
        Condition::Same(_) => Ok(Some(first == second)),
        Condition::Different(_) => Ok(Some(first != second)),
        Condition::Defined(_) => one_has_text(alloc, vars, first),
        Condition::Undefined(_) => match one_has_text(alloc, vars, first)? {
            Some(b) => Ok(Some(!b)),
            None => Ok(None),
        },
        Condition::Malformed => Ok(None),
    }
}

impl Reading {
    /// Opens a conditional, when its condition is expanded.
    pub fn if_heard(
        &mut self,
        alloc: Global,
        place: &Place,
        condition: &Condition,
        heard: &Heard,
    ) -> Result<(), ReadNo>
        ensures { Works is_free self.old self.new result
            (acting.if_heard place.now condition.now heard.now) }
    {
        if let Some(name) = refused_in(heard) {
            return Err(refused(alloc, place, name.bytes()));
        }
        match holds(alloc, &self.book.vars, condition, heard)? {
            None => Err(at(alloc, place, MakefileFault::Separator)),
            Some(holds) => self.enter(alloc, place, holds),
        }
    }

    /// The next branch, when its condition is expanded.
    pub fn else_if_heard(
        &mut self,
        alloc: Global,
        place: &Place,
        condition: &Condition,
        heard: &Heard,
    ) -> Result<(), ReadNo>
        ensures { Works is_free self.old self.new result
            (acting.else_if_heard place.now condition.now heard.now) }
    {
        if let Some(name) = refused_in(heard) {
            return Err(refused(alloc, place, name.bytes()));
        }
        match holds(alloc, &self.book.vars, condition, heard)? {
            None => Err(at(alloc, place, MakefileFault::Separator)),
            Some(holds) => self.other(alloc, place, Some(holds)),
        }
    }
}
