//! The unquoted bytes at a word's begin, and descriptors, as they are put.
ghost use Rattle.std.specs.Prelude.{◌≡◌, OnOk};
ghost use Rattle.em_lex.specs.Heads as heads;

use crate::state::Lexer;
use em_base::{Construct, NoMemory, Text};
use em_lexeme::frame::Frame;
use em_lexeme::place::place_behind;
use em_lexeme::spot::{Spot, behind_target, spot_in};
use em_lexeme::word::{
    assignment_length, descriptor, front_start, is_assigning, is_dash, is_number, whole_start,
};
use em_lexeme::{Start, What};
use std::alloc::Global;

impl Lexer {
    /// Begins a word at `at`.
    fn start_word(&mut self, start: Start, at: usize) -> Result<(), NoMemory>
        ensures { OnOk result (self.new ≡ heads.started start at self.old) }
    {
        self.emit(at, at, What::WordStart(start))?;
        self.put_cases(start)?;
        self.spot = spot_in(self.spot, start);
        Ok(())
    }

    /// Puts unquoted bytes, where there are some.
    fn put_bytes(
        &mut self,
        alloc: Global,
        text: &[u8],
        start: usize,
        end: usize,
    ) -> Result<(), NoMemory>
        ensures { OnOk result (self.new ≡ heads.with_bytes text.now start end self.old) }
    {
        if text.is_empty() {
            return Ok(());
        }
        let text = Text::from_slice(alloc, text)?;
        let quoted = false;
        self.emit(start, end, What::Bytes { quoted, text })
    }

    /// Puts the bytes of an assignment: its name with `=`, and what stands behind that.
    #[tactic(auto, unfolding(crate::specs::Heads::with_assignment))]
    fn put_assignment(&mut self, alloc: Global, text: &[u8], to: usize) -> Result<(), NoMemory>
        ensures { OnOk result (self.new ≡ heads.with_assignment text.now to self.old) }
    {
        let size = assignment_length(text);
        let middle = place_behind(self.start, size, to);
        let name = Text::from_slice(alloc, &text[..size])?;
        let quoted = false;
        self.emit(self.start, middle, What::Bytes { quoted, text: name })?;
        self.put_bytes(alloc, &text[size..], middle, to)
    }

    /// Puts the word's begin and its unquoted bytes, which were gathered and end at `to`.
    #[tactic(auto, unfolding(crate::specs::Heads::headed))]
    fn put_head(&mut self, alloc: Global, start: Start, to: usize) -> Result<(), NoMemory>
        ensures { OnOk result (self.new ≡ heads.headed start to self.old) }
    {
        self.start_word(start, self.start)?;
        let text = self.take_text(alloc);
        if is_assigning(start) {
            return self.put_assignment(alloc, text.bytes(), to);
        }
        let quoted = false;
        self.emit(self.start, to, What::Bytes { quoted, text })
    }

    /// Puts the descriptor, which ends at `to`; where it is refused, 9.
    fn put_number(&mut self, alloc: Global, number: Option<u8>, to: usize) -> Result<(), NoMemory>
        ensures { OnOk result (self.new ≡ heads.numbered number to self.old) }
    {
        self.spend(alloc);
        match number {
            Some(number) => self.emit(self.start, to, What::Number(number)),
            None => {
                self.refuse(Construct::Descriptor, self.start);
                self.emit(self.start, to, What::Number(9))
            }
        }
    }

    /// Puts a word of unquoted bytes alone.
    #[tactic(auto, unfolding(crate::specs::Heads::worded))]
    fn put_word(&mut self, alloc: Global, to: usize) -> Result<(), NoMemory>
        ensures { OnOk result (self.new ≡ heads.worded self.old to) }
    {
        let start = whole_start(self.text.bytes());
        self.put_head(alloc, start, to)?;
        self.emit(to, to, What::WordEnd)
    }

    /// Puts what stands behind a `>&` at `at`, which is a compound command's or not: a descriptor,
    /// or `-`, or a word.
    #[tactic(auto, unfolding(crate::specs::Heads::duplicated))]
    fn put_duplicate(
        &mut self,
        alloc: Global,
        at: usize,
        closed: bool,
        to: usize,
    ) -> Result<(), NoMemory>
        ensures { OnOk result (self.new ≡ heads.duplicated at closed self.old to) }
    {
        if is_number(self.text.bytes()) {
            let number = descriptor(1, self.text.bytes());
            self.spot = behind_target(closed);
            return self.put_number(alloc, number, to);
        }
        if is_dash(self.text.bytes()) {
            self.refuse(Construct::Redirection, at);
            self.spend(alloc);
            self.spot = behind_target(closed);
            return Ok(());
        }
        self.put_word(alloc, to)
    }

    /// Puts unquoted bytes that end at `at`, before the byte `next`.
    #[tactic(auto, unfolding(crate::specs::Heads::told))]
    pub(crate) fn tell(&mut self, alloc: Global, next: u8, at: usize) -> Result<(), NoMemory>
        ensures { OnOk result (self.new ≡ heads.told self.old next at) }
    {
        if let Spot::Duplicate(from, closed) = self.spot {
            return self.put_duplicate(alloc, from, closed, at);
        }
        if is_number(self.text.bytes()) && (next == b'<' || next == b'>') {
            let number = descriptor(0, self.text.bytes());
            return self.put_number(alloc, number, at);
        }
        self.put_word(alloc, at)
    }

    /// Puts the front of a word that goes on with something else behind its unquoted bytes.
    #[tactic(auto, unfolding(crate::specs::Heads::fronted))]
    pub(crate) fn front(&mut self, alloc: Global, to: usize) -> Result<(), NoMemory>
        ensures { OnOk result (self.new ≡ heads.fronted self.old to) }
    {
        let start = front_start(self.text.bytes());
        self.put_head(alloc, start, to)?;
        self.push(Frame::InWord)
    }

    /// Puts the begin of a word that doesn't begin with unquoted bytes.
    #[tactic(auto, unfolding(crate::specs::Heads::entered))]
    pub(crate) fn enter(&mut self, at: usize) -> Result<(), NoMemory>
        ensures { OnOk result (self.new ≡ heads.entered self.old at) }
    {
        self.start_word(Start::Plain, at)?;
        self.push(Frame::InWord)
    }
}
