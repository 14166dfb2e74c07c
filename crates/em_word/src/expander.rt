//! An expander: a word on the way to its expansion.
ghost use Rattle.std.specs.Prelude.{◌≡◌, option_map, IfOk, MatchResult};
ghost use Rattle.em_view.specs.Performs.{Performs};
ghost use Rattle.em_word.specs.Ends.{is_want};
ghost use Rattle.em_word.specs.Held.{plan_of, plan_given, word_of, mode_of, asked_of, with_piece, given, seen, IsReady, IsWaiting, IsSteady, StandsAfter};
ghost use Rattle.em_word.specs.Leads.{IsSame, GoesOn, Failed};
ghost use Rattle.em_word.specs.Turns as turns;
ghost use Rattle.em_word.specs.Turns.{turn};
ghost use Rattle.em_word.specs.Values.{taken};
ghost use Rattle.em_word.specs.Words.{word_plan};

use crate::fault::WordFault;
use crate::names::names_of_each;
use crate::shell::Shell;
use crate::step::{ExpansionStep, charge};
use crate::turn::{Mode, WordTurn};
use em_base::{NoMemory, Seq, Stack, Text};
use em_fields::{Late, Part, add_bytes, bytes, fields, glyphs, without_newlines};
use em_syntax::{Script, Word, WordPiece};
use em_view::{Desk, View};
use std::alloc::Global;
use std::mem;

/// A word whose expansion goes from turn to turn.
#[derive(Drop)]
pub struct Expander<'a> {
    pub(crate) mode: Mode,
    pub(crate) word: &'a Word,
    /// How many of the word's substitutions stand before what is left.
    pub(crate) before: usize,
    /// What the innermost open text has come to so far.
    pub(crate) parts: Seq<Part>,
    /// The pieces that are left.
    pub(crate) rest: &'a [WordPiece],
    /// The values whose arguments are open.
    pub(crate) outer: Stack<Open<'a>>,
    pub(crate) stage: ExpanderStage<'a>,
}

/// A value whose argument is being expanded.
#[derive(Drop)]
pub(crate) struct Open<'a> {
    pub(crate) quoted: bool,
    pub(crate) late: Late,
    pub(crate) name: &'a [u8],
    /// What the text around it has come to.
    pub(crate) parts: Seq<Part>,
}

/// Whether the output of a command is needed.
#[derive(Drop)]
pub(crate) enum ExpanderStage<'a> {
    Ready,
    /// That of this script is, and is quoted or not.
    Waiting(bool, &'a Script),
    /// It was handed in.
    Given(bool, Text),
}

/// The stage after an output was handed in.
fn with_output<'a>(stage: &ExpanderStage<'a>, output: Text) -> ExpanderStage<'a>
    ensures { result ≡ given stage.now output }
{
    match stage {
        ExpanderStage::Ready => ExpanderStage::Given(false, output),
        ExpanderStage::Waiting(quoted, _) | ExpanderStage::Given(quoted, _) => ExpanderStage::Given(
            *quoted, output,
        ),
    }
}

impl<'a> Expander<'a> {
    /// The expansion of the word, at its begin. Steps are constant.
    pub fn new(alloc: Global, word: &'a Word, mode: Mode) -> Result<Expander<'a>, NoMemory>
        ensures plan { IfOk result (λ e. plan_of e ≡ word_plan word.now) }
        ensures what { IfOk result (λ e. (word_of e ≡ word.now) × (mode_of e ≡ mode)) }
        ensures ready { IfOk result (λ e. IsReady e) }
    {
        Ok(Expander {
            mode,
            word,
            before: 0,
            parts: Seq::new(alloc),
            rest: &word.pieces,
            outer: Stack::new(alloc),
            stage: ExpanderStage::Ready,
        })
    }

    /// The script whose output the last turn asked for, where it did: the word's substitution of
    /// the number that the turn gave. Takes no memory, and no search.
    pub fn script(&self) -> Option<&'a Script>
        ensures { option_map (λ s. s.now) result ≡ asked_of self.now }
    {
        match self.stage {
            ExpanderStage::Waiting(_, script) => Some(script),
            ExpanderStage::Ready | ExpanderStage::Given(..) => None,
        }
    }

    /// Hands in the output that the last turn asked for. Takes no memory.
    pub fn give(&mut self, output: Text)
        requires { IsWaiting self.old }
        ensures plan { plan_of self.new ≡ plan_given self.old output }
        ensures ready { IsReady self.new }
        ensures same { IsSame self.old self.new }
    {
        self.stage = with_output(&self.stage, output);
    }

    /// Adds the output of a command, without the newlines at its end.
    fn use_output<V: View>(
        &mut self,
        quoted: bool,
        output: &[u8],
        shell: &Shell,
        desk: &mut Desk<V>,
    ) -> Result<(), WordFault>
        requires { IsSteady self.old }
        ensures goes { MatchResult result
            (λ u. GoesOn V.tells (mode_of self.old) shell.now desk.old desk.new
            (with_piece (taken quoted output.now) self.old) self.new)
            (Failed V.tells (mode_of self.old) shell.now desk.old desk.new
            (with_piece (taken quoted output.now) self.old)) }
        ensures same { IsSame self.old self.new }
    {
        let output = without_newlines(output);
        charge(desk, output.len())?;
        add_bytes(&mut self.parts, quoted, output)?;
        Ok(())
    }

    /// Uses the output that was handed in, if one was.
    fn take_output<V: View>(&mut self, shell: &Shell, desk: &mut Desk<V>) -> Result<(), WordFault>
        requires { IsReady self.old }
        ensures goes { MatchResult result
            (λ u. GoesOn V.tells (mode_of self.old) shell.now desk.old desk.new
            (plan_of self.old) self.new)
            (Failed V.tells (mode_of self.old) shell.now desk.old desk.new (plan_of self.old)) }
        ensures same { IsSame self.old self.new }
    {
        match mem::replace(&mut self.stage, ExpanderStage::Ready) {
            ExpanderStage::Given(quoted, output) => self.use_output(
                quoted,
                output.bytes(),
                shell,
                desk,
            ),
            ExpanderStage::Ready | ExpanderStage::Waiting(..) => Ok(()),
        }
    }

    /// Goes on to the next turn. Before it is called again, the value of a turn `Set` is to be set
    /// in the shell, and the output of a turn `Output` is to be given; after another turn or a
    /// fault it isn't called again. A unit of fuel is taken before each `$` or backquote expansion,
    /// and the blocks of what it gives after it. All turns of a word together take steps for each
    /// of its pieces, for each byte of what the expansions give, those of a match for each byte
    /// that a pattern is tried from, and those of path name expansion.
    pub fn fields<V: View>(
        &mut self,
        alloc: Global,
        shell: &Shell,
        desk: &mut Desk<V>,
    ) -> Result<WordTurn, WordFault>
        requires { IsReady self.old }
        ensures turn { Performs is_want V.tells desk.old desk.new (seen self.new result)
            (turn (mode_of self.old) (plan_of self.old) shell.now) }
        ensures stands { IfOk result (λ t. StandsAfter self.new t) }
        ensures same { IfOk result (λ t. IsSame self.old self.new) }
    {
        self.take_output(shell, desk)?;
        self.go(alloc, shell, desk)
    }

    /// Goes on from between two pieces.
    fn go<V: View>(
        &mut self,
        alloc: Global,
        shell: &Shell,
        desk: &mut Desk<V>,
    ) -> Result<WordTurn, WordFault>
        requires { IsSteady self.old }
        ensures turn { Performs is_want V.tells desk.old desk.new (seen self.new result)
            (turn (mode_of self.old) (plan_of self.old) shell.now) }
        ensures stands { IfOk result (λ t. StandsAfter self.new t) }
        ensures same { IfOk result (λ t. IsSame self.old self.new) }
    {
        for _ in 0..u64::MAX {
            match self.step(alloc, shell, desk)? {
                ExpansionStep::Goes => {}
                ExpansionStep::Turn(turn) => return Ok(turn),
                ExpansionStep::Ended => return self.finish(alloc, shell, desk),
            }
        }
        Err(WordFault::NoMemory)
    }

    /// What the word comes to in its mode.
    fn finish<V: View>(
        &mut self,
        alloc: Global,
        shell: &Shell,
        desk: &mut Desk<V>,
    ) -> Result<WordTurn, WordFault>
        ensures turn { Performs is_want V.tells desk.old desk.new (seen self.new result)
            (turns.finish (mode_of self.old) shell.now.cwd self.old.parts) }
        ensures stands { IfOk result (λ t. StandsAfter self.new t) }
        ensures same { self.new ≡ self.old }
    {
        let parts = self.parts.items();
        match self.mode {
            Mode::Fields => {
                let fields = fields(alloc, parts)?;
                Ok(WordTurn::Done(names_of_each(alloc, fields.items(), &shell.cwd, desk)?))
            }
            Mode::Whole => {
                let mut texts = Seq::new(alloc);
                texts.push(bytes(alloc, parts)?)?;
                Ok(WordTurn::Done(texts))
            }
            Mode::Pattern => Ok(WordTurn::Pattern(glyphs(alloc, parts)?)),
        }
    }
}
