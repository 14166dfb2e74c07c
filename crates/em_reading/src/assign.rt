//! Assignments and directives on names, when their texts are expanded.
ghost use Rattle.std.specs.Prelude.{◌≡◌, option_copied, option_map};
ghost use Rattle.em_reading.specs.Faults.{is_free};
ghost use Rattle.em_reading.specs.Heard as acting;
ghost use Rattle.em_reading.specs.Heard.{name_refusal, operator_refusal, refused_in};
ghost use Rattle.em_view.specs.Steps.{Works};

use crate::heard::Heard;
use crate::no::{ReadNo, refused};
use crate::reading::Reading;
use crate::vars::{assign, mark_all, undefine, unmark_all};
use em_base::{Place, Text};
use em_statement::{Assignment, Operator, Undefine};
use em_wordlist::texts;
use std::alloc::Global;

/// The first function that was refused in the texts.
pub fn refused_in(heard: &Heard) -> Option<&Text>
    ensures { option_copied result ≡ refused_in heard.now }
{
    match &heard.first.refused {
        Some(name) => Some(name),
        None => heard.second.refused.as_ref(),
    }
}

/// The name of a variable that can't be assigned.
fn name_refusal(name: &[u8]) -> Option<&[u8]>
    ensures { option_map (λ n. n.now) result ≡ name_refusal name.now }
{
    if name == b"VPATH".as_slice() || name == b".RECIPEPREFIX".as_slice() {
        Some(name)
    } else {
        None
    }
}

/// An operator that isn't supported.
fn operator_refusal(operator: Operator) -> Option<&'static [u8]>
    ensures { option_map (λ n. n.now) result ≡ operator_refusal operator }
{
    match operator {
        Operator::Shell => Some(b"!="),
        Operator::Posix => Some(b":::="),
        Operator::Recursive => None,
        Operator::Simple => None,
        Operator::IfUndefined => None,
        Operator::Append => None,
    }
}

/// The name in an expansion's refusal.
fn bytes_of(name: &Option<Text>) -> Option<&[u8]>
    ensures { option_map (λ n. n.now) result ≡ name.now }
{
    match name {
        Some(name) => Some(name.bytes()),
        None => None,
    }
}

/// What is refused in an assignment, from the left.
fn assignment_refusal<'a>(operator: Operator, heard: &'a Heard) -> Option<&'a [u8]>
    ensures { option_map (λ n. n.now) result ≡ acting.assignment_refusal operator heard.now }
{
    if let Some(name) = bytes_of(&heard.first.refused) {
        return Some(name);
    }
    if let Some(name) = name_refusal(heard.first.text.bytes()) {
        return Some(name);
    }
    if let Some(name) = operator_refusal(operator) {
        return Some(name);
    }
    bytes_of(&heard.second.refused)
}

impl Reading {
    /// An assignment.
    pub fn assign(
        &mut self,
        alloc: Global,
        place: &Place,
        assignment: &Assignment,
        heard: &Heard,
    ) -> Result<(), ReadNo>
        ensures { Works is_free self.old self.new result
            (acting.assign place.now assignment.now heard.now) }
    {
        if let Some(name) = assignment_refusal(assignment.operator, heard) {
            return Err(refused(alloc, place, name));
        }
        let value = heard.second.text.copy(alloc)?;
        let name = heard.first.text.bytes();
        let vars = &mut self.book.vars;
        assign(
            alloc,
            vars,
            assignment.modifiers,
            assignment.operator,
            name,
            value,
        )?;
        Ok(())
    }

    /// `undefine`
    pub fn undefine(
        &mut self,
        alloc: Global,
        place: &Place,
        directive: &Undefine,
        heard: &Heard,
    ) -> Result<(), ReadNo>
        ensures { Works is_free self.old self.new result
            (acting.undefine place.now directive.now heard.now) }
    {
        if let Some(name) = refused_in(heard) {
            return Err(refused(alloc, place, name.bytes()));
        }
        undefine(
            &mut self.book.vars,
            heard.first.text.bytes(),
            directive.overriding,
        );
        Ok(())
    }

    /// `export`
    pub fn export(&mut self, alloc: Global, place: &Place, heard: &Heard) -> Result<(), ReadNo>
        ensures { Works is_free self.old self.new result (acting.export place.now heard.now) }
    {
        if let Some(name) = refused_in(heard) {
            return Err(refused(alloc, place, name.bytes()));
        }
        let names = texts(alloc, heard.first.text.bytes())?;
        mark_all(alloc, &mut self.book.vars, &names)?;
        Ok(())
    }

    /// `unexport`
    pub fn unexport(&mut self, alloc: Global, place: &Place, heard: &Heard) -> Result<(), ReadNo>
        ensures { Works is_free self.old self.new result (acting.unexport place.now heard.now) }
    {
        if let Some(name) = refused_in(heard) {
            return Err(refused(alloc, place, name.bytes()));
        }
        let names = texts(alloc, heard.first.text.bytes())?;
        unmark_all(alloc, &mut self.book.vars, &names)?;
        Ok(())
    }
}
