//! The small changes of which reading consists.
ghost use Rattle.std.specs.Prelude.{◌≡◌, slice_get, OnOk};
ghost use Rattle.em_lex.specs.Steps as steps;
ghost use Rattle.em_lex.specs.Lexing.{at_first};

use crate::state::{Lexer, Mode};
use em_base::{Construct, NoMemory, Seq, Span, Stack, Text};
use em_lexeme::frame::Frame;
use em_lexeme::spot::Spot;
use em_lexeme::{LexNo, Lexeme, What};
use std::alloc::Global;
use std::mem;

impl Lexer {
    /// Where nothing is read.
    pub(crate) fn new(alloc: Global) -> Lexer
        ensures { result ≡ at_first }
    {
        Lexer {
            items: Seq::new(alloc),
            fault: None,
            frames: Stack::new(alloc),
            spot: Spot::Command,
            mode: Mode::Ready,
            backslash: false,
            start: 0,
            text: Text::new(alloc),
            places: Seq::new(alloc),
        }
    }

    /// The innermost of what is open.
    pub(crate) fn top(&self) -> Option<Frame>
        ensures { result ≡ steps.top self.now }
    {
        self.frames.top().copied()
    }

    /// Appends a lexeme.
    pub(crate) fn emit(&mut self, start: usize, end: usize, what: What) -> Result<(), NoMemory>
        ensures { OnOk result (self.new ≡ steps.emitted self.old start end what) }
    {
        let span = Span { start, end };
        self.items.push(Lexeme { span, what })
    }

    /// Notes a fault; the first one counts.
    pub(crate) fn note(&mut self, fault: LexNo)
        ensures { self.new ≡ record self.old { fault = steps.first_fault self.old.fault fault } }
    {
        if self.fault.is_none() {
            self.fault = Some(fault);
        }
    }

    /// Notes that the construct which begins at `at` isn't supported.
    pub(crate) fn refuse(&mut self, construct: Construct, at: usize)
        ensures { self.new ≡ steps.refused self.old construct at }
    {
        self.note(LexNo::Refused(construct, at));
    }

    /// Opens something.
    pub(crate) fn push(&mut self, frame: Frame) -> Result<(), NoMemory>
        ensures { OnOk result (self.new ≡ steps.pushed frame self.old) }
    {
        self.frames.push(frame)
    }

    /// Closes the innermost of what is open.
    pub(crate) fn pop(&mut self)
        ensures { self.new ≡ steps.popped self.old }
    {
        self.frames.pop();
        self.mode = Mode::Ready;
    }

    /// Begins what the mode says at `at`.
    pub(crate) fn begin(&mut self, alloc: Global, mode: Mode, at: usize)
        ensures { self.new ≡ steps.begun mode at self.old }
    {
        self.mode = mode;
        self.start = at;
        self.text = Text::new(alloc);
    }

    /// Goes over to another mode.
    pub(crate) fn turn(&mut self, mode: Mode)
        ensures { self.new ≡ steps.turned mode self.old }
    {
        self.mode = mode;
    }

    /// Gathers a byte.
    pub(crate) fn gather(&mut self, byte: u8) -> Result<(), NoMemory>
        ensures { OnOk result (self.new ≡ steps.gathered self.old byte) }
    {
        self.text.add(&[byte])
    }

    /// Takes out what was gathered.
    pub(crate) fn take_text(&mut self, alloc: Global) -> Text
        ensures text { result ≡ self.old.text }
        ensures state { self.new ≡ steps.spent self.old }
    {
        self.mode = Mode::Ready;
        mem::replace(&mut self.text, Text::new(alloc))
    }

    /// Drops what was gathered.
    pub(crate) fn spend(&mut self, alloc: Global)
        ensures { self.new ≡ steps.spent self.old }
    {
        self.mode = Mode::Ready;
        self.text = Text::new(alloc);
    }
}
