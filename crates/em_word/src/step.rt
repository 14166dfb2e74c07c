//! One step of an expander.
ghost use Rattle.std.specs.Prelude.{◌≡◌, ◌+◌, ◌++◌, [], length, drop, option_map, IfOk, MatchResult};
ghost use Rattle.em_view.specs.Actions.{lift, spend};
ghost use Rattle.em_view.specs.Performs.{Performs};
ghost use Rattle.em_view.specs.Rows.{blocks};
ghost use Rattle.em_syntax.specs.Scripts.{scripts_in};
ghost use Rattle.em_fields.specs.Forms as forms;
ghost use Rattle.em_fields.specs.Parts.{marked, joined};
ghost use Rattle.em_word.specs.Ends.{is_want, of_desk};
ghost use Rattle.em_word.specs.Held.{plan_of, mode_of, with_piece, with_begin, with_end, value_plan, IsSteady, Entered};
ghost use Rattle.em_word.specs.Leads.{Stepped, Failed, IsSame, closed};
ghost use Rattle.em_word.specs.Passing.{behind};
ghost use Rattle.em_word.specs.Values as values;
ghost use Rattle.em_word.specs.Values.{charged};
ghost use Rattle.em_word.specs.declared.expander.ExpanderStage.TheVariants as stage;
ghost use Rattle.em_word.specs.declared.step.ExpansionStep.TheVariants as step;
ghost use Rattle.em_word.specs.declared.turn.WordTurn.TheVariants as turn;

use crate::expander::{Expander, ExpanderStage, Open};
use crate::fault::WordFault;
use crate::passing::{behind_argument, sum};
use crate::shell::Shell;
use crate::turn::WordTurn;
use em_base::{Construct, NoMemory, Seq, Text};
use em_fields::{
    Early, Late, Part, add_bytes, add_mark, add_parts, bytes, cut_off, early_value, form_of,
    glyphs, late_value, size,
};
use em_syntax::{Script, Value, WordWhat};
use em_view::{Desk, View, blocks};
use itoa::Buffer;
use std::alloc::Global;
use std::mem;

/// What a step came to.
#[derive(Drop)]
pub(crate) enum ExpansionStep {
    /// The expansion goes on.
    Goes,
    /// A turn.
    Turn(WordTurn),
    /// Nothing is left.
    Ended,
}

/// A value whose argument has been expanded.
#[derive(Drop)]
struct Closed<'a> {
    quoted: bool,
    late: Late,
    name: &'a [u8],
    argument: Seq<Part>,
}

/// Takes the blocks of so many bytes.
pub(crate) fn charge<V: View>(desk: &mut Desk<V>, bytes: usize) -> Result<(), WordFault>
    ensures { Performs is_want V.tells desk.old desk.new result
        (lift of_desk (spend (blocks bytes))) }
{
    desk.take(blocks(bytes as u64))?;
    Ok(())
}

/// Takes a unit.
fn charge_unit<V: View>(desk: &mut Desk<V>) -> Result<(), WordFault>
    ensures { Performs is_want V.tells desk.old desk.new result (lift of_desk (spend 1)) }
{
    desk.take(1)?;
    Ok(())
}

/// The variable's text.
fn text_of<'s>(shell: &'s Shell, name: &[u8]) -> Option<&'s [u8]>
    ensures { option_map (λ t. t.now) result ≡ values.text_of shell.now name.now }
{
    shell.vars.get(name).map(|v| v.text.bytes())
}

/// The variable's text, the empty one where it is unset.
fn text_or_empty<'s>(shell: &'s Shell, name: &[u8]) -> &'s [u8]
    ensures { result.now ≡ forms.text (values.text_of shell.now name.now) }
{
    text_of(shell, name).unwrap_or(b"")
}

/// What `${name?word}` writes.
fn complaint(alloc: Global, name: &[u8], word: &[u8]) -> Result<Text, NoMemory>
    ensures { IfOk result (λ t. t ≡ values.complaint name.now word.now) }
{
    let mut text = Text::from_slice(alloc, b"emake: sh: ")?;
    text.add(name)?;
    text.add(b": ")?;
    text.add(word)?;
    text.add(b"\n")?;
    Ok(text)
}

impl<'a> Expander<'a> {
    /// Asks for the output of the next substitution.
    fn ask(&mut self, quoted: bool, script: &'a Script) -> Result<ExpansionStep, NoMemory>
        ensures turn { IfOk result (λ s. s ≡ step.Turn (turn.Output self.old.before)) }
        ensures new { IfOk result
            (λ s. self.new ≡ record self.old {
              before = self.old.before + 1;
              stage = stage.Waiting quoted script.entry;
            }) }
    {
        let number = self.before;
        self.before = number.checked_add(1).ok_or(NoMemory)?;
        self.stage = ExpanderStage::Waiting(quoted, script);
        Ok(ExpansionStep::Turn(WordTurn::Output(number)))
    }

    /// Goes into the argument of a value.
    fn enter(
        &mut self,
        alloc: Global,
        quoted: bool,
        late: Late,
        value: &'a Value,
    ) -> Result<(), NoMemory>
        ensures { IfOk result (λ u. Entered self.old self.new quoted late value.now) }
    {
        let parts = mem::replace(&mut self.parts, Seq::new(alloc));
        self.outer.push(Open {
            quoted,
            late,
            name: value.name.bytes(),
            parts,
        })
    }

    /// Passes over the argument that begins here.
    #[tactic(auto, unfolding(crate::specs::Held::word_of, crate::specs::Held::mode_of))]
    fn pass_over(&mut self) -> Result<(), NoMemory>
        ensures new { IfOk result
            (λ u. self.new ≡ record self.old { rest = self.new.rest; before = self.new.before }) }
        ensures rest { IfOk result (λ u. self.new.rest.now ≡ behind 1 self.old.rest.now) }
        ensures steady { IfOk result (λ u. IsSteady self.old → IsSteady self.new) }
        ensures same { IfOk result (λ u. IsSame self.old self.new) }
    {
        let (rest, scripts) = behind_argument(self.rest)?;
        self.before = sum(self.before, scripts)?;
        self.rest = rest;
        Ok(())
    }

    /// A value on which no argument bears.
    #[tactic(auto, unfolding(crate::specs::Held::word_of, crate::specs::Held::mode_of))]
    fn settle<V: View>(
        &mut self,
        quoted: bool,
        text: &[u8],
        shell: &Shell,
        desk: &mut Desk<V>,
    ) -> Result<ExpansionStep, WordFault>
        requires { IsSteady self.old }
        ensures steps { MatchResult result
            (Stepped V.tells (mode_of self.old) shell.now desk.old desk.new
            (with_piece (charged (marked quoted text.now)) self.old) self.new)
            (Failed V.tells (mode_of self.old) shell.now desk.old desk.new
            (with_piece (charged (marked quoted text.now)) self.old)) }
        ensures same { IfOk result (λ s. IsSame self.old self.new) }
    {
        charge(desk, text.len())?;
        add_bytes(&mut self.parts, quoted, text)?;
        Ok(ExpansionStep::Goes)
    }

    /// A value without an argument.
    #[tactic(auto, unfolding(crate::specs::Held::word_of, crate::specs::Held::mode_of))]
    fn value<V: View>(
        &mut self,
        alloc: Global,
        quoted: bool,
        value: &Value,
        shell: &Shell,
        desk: &mut Desk<V>,
    ) -> Result<ExpansionStep, WordFault>
        requires { IsSteady self.old }
        ensures steps { MatchResult result
            (Stepped V.tells (mode_of self.old) shell.now desk.old desk.new
            (with_piece (value_plan value.now quoted) self.old) self.new)
            (Failed V.tells (mode_of self.old) shell.now desk.old desk.new
            (with_piece (value_plan value.now quoted) self.old)) }
        ensures same { IfOk result (λ s. IsSame self.old self.new) }
    {
        charge_unit(desk)?;
        let name = value.name.bytes();
        let Some(form) = form_of(name, value.form.bytes(), false) else {
            return Err(WordFault::Refused(Construct::Positional));
        };
        match early_value(form, text_of(shell, name), shell.status) {
            Early::Text(text) => self.settle(quoted, text, shell, desk),
            Early::Number(number) => {
                let mut buffer = Buffer::new();
                self.settle(quoted, buffer.format(number).as_bytes(), shell, desk)
            }
            Early::Argument => {
                let late = late_value(form);
                let argument = Seq::new(alloc);
                let bare = Closed {
                    quoted,
                    late,
                    name,
                    argument,
                };
                self.close(alloc, &bare, shell, desk)
            }
        }
    }

    /// The begin of a value's argument: it is gone into where it bears on the value, and else
    /// passed over.
    #[tactic(auto, unfolding(crate::specs::Held::word_of, crate::specs::Held::mode_of))]
    fn begin<V: View>(
        &mut self,
        alloc: Global,
        quoted: bool,
        value: &'a Value,
        shell: &Shell,
        desk: &mut Desk<V>,
    ) -> Result<ExpansionStep, WordFault>
        requires { IsSteady self.old }
        ensures steps { MatchResult result
            (Stepped V.tells (mode_of self.old) shell.now desk.old desk.new
            (with_begin value.now quoted self.old) self.new)
            (Failed V.tells (mode_of self.old) shell.now desk.old desk.new
            (with_begin value.now quoted self.old)) }
        ensures same { IfOk result (λ s. IsSame self.old self.new) }
    {
        charge_unit(desk)?;
        let name = value.name.bytes();
        let Some(form) = form_of(name, value.form.bytes(), true) else {
            return Err(WordFault::Refused(Construct::Positional));
        };
        match early_value(form, text_of(shell, name), shell.status) {
            Early::Argument => {
                self.enter(alloc, quoted, late_value(form), value)?;
                Ok(ExpansionStep::Goes)
            }
            Early::Text(text) => {
                self.pass_over()?;
                self.settle(quoted, text, shell, desk)
            }
            Early::Number(number) => {
                self.pass_over()?;
                let mut buffer = Buffer::new();
                self.settle(quoted, buffer.format(number).as_bytes(), shell, desk)
            }
        }
    }

    /// The value of which this was the argument.
    #[tactic(auto, unfolding(crate::specs::Held::word_of, crate::specs::Held::mode_of))]
    fn close<V: View>(
        &mut self,
        alloc: Global,
        value: &Closed,
        shell: &Shell,
        desk: &mut Desk<V>,
    ) -> Result<ExpansionStep, WordFault>
        requires { IsSteady self.old }
        ensures steps { MatchResult result
            (Stepped V.tells (mode_of self.old) shell.now desk.old desk.new
            (with_piece (closed value.now) self.old) self.new)
            (Failed V.tells (mode_of self.old) shell.now desk.old desk.new
            (with_piece (closed value.now) self.old)) }
        ensures same { IfOk result (λ s. IsSame self.old self.new) }
    {
        let argument = value.argument.items();
        match value.late {
            Late::Keep => {
                charge(desk, size(argument))?;
                add_mark(&mut self.parts, value.quoted)?;
                add_parts(&mut self.parts, argument)?;
                Ok(ExpansionStep::Goes)
            }
            Late::Assign => {
                let text = bytes(alloc, argument)?;
                charge(desk, text.bytes().len())?;
                add_bytes(&mut self.parts, value.quoted, text.bytes())?;
                Ok(ExpansionStep::Turn(WordTurn::Set(Text::from_slice(alloc, value.name)?, text)))
            }
            Late::Complain => {
                let text = bytes(alloc, argument)?;
                Err(WordFault::Unset(complaint(alloc, value.name, text.bytes())?))
            }
            Late::Cut(cut) => {
                let pattern = glyphs(alloc, argument)?;
                let text = cut_off(cut, pattern.items(), text_or_empty(shell, value.name));
                charge(desk, text.len())?;
                add_bytes(&mut self.parts, value.quoted, text)?;
                Ok(ExpansionStep::Goes)
            }
        }
    }

    /// The end of the innermost argument; where none is open it is passed over.
    #[tactic(auto, unfolding(crate::specs::Held::word_of, crate::specs::Held::mode_of))]
    fn leave<V: View>(
        &mut self,
        alloc: Global,
        shell: &Shell,
        desk: &mut Desk<V>,
    ) -> Result<ExpansionStep, WordFault>
        requires { IsSteady self.old }
        ensures steps { MatchResult result
            (Stepped V.tells (mode_of self.old) shell.now desk.old desk.new
            (with_end self.old) self.new)
            (Failed V.tells (mode_of self.old) shell.now desk.old desk.new (with_end self.old)) }
        ensures same { IfOk result (λ s. IsSame self.old self.new) }
    {
        let Some(open) = self.outer.pop() else {
            return Ok(ExpansionStep::Goes);
        };
        let Open {
            quoted,
            late,
            name,
            parts,
        } = open;
        let argument = mem::replace(&mut self.parts, parts);
        let value = Closed {
            quoted,
            late,
            name,
            argument,
        };
        self.close(alloc, &value, shell, desk)
    }

    /// The next piece.
    #[tactic(auto, unfolding(crate::specs::Held::word_of, crate::specs::Held::mode_of))]
    pub(crate) fn step<V: View>(
        &mut self,
        alloc: Global,
        shell: &Shell,
        desk: &mut Desk<V>,
    ) -> Result<ExpansionStep, WordFault>
        requires { IsSteady self.old }
        ensures steps { MatchResult result
            (Stepped V.tells (mode_of self.old) shell.now desk.old desk.new
            (plan_of self.old) self.new)
            (Failed V.tells (mode_of self.old) shell.now desk.old desk.new (plan_of self.old)) }
        ensures same { IfOk result (λ s. IsSame self.old self.new) }
    {
        let Some((piece, rest)) = self.rest.split_first() else {
            return Ok(ExpansionStep::Ended);
        };
        self.rest = rest;
        match &piece.what {
            WordWhat::Bytes(text) => {
                add_bytes(&mut self.parts, piece.quoted, text.bytes())?;
                Ok(ExpansionStep::Goes)
            }
            WordWhat::Output(script) => {
                charge_unit(desk)?;
                Ok(self.ask(piece.quoted, script)?)
            }
            WordWhat::Value(value) => self.value(alloc, piece.quoted, value, shell, desk),
            WordWhat::Argument(value) => self.begin(alloc, piece.quoted, value, shell, desk),
            WordWhat::End => self.leave(alloc, shell, desk),
        }
    }
}
