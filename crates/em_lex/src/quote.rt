//! Backslashes and backquotes.
ghost use Rattle.std.specs.Prelude.{◌≡◌, OnOk};
ghost use Rattle.em_lex.specs.Quotes as quotes;
ghost use Rattle.em_lex.specs.Modes.{by_mode};

use crate::state::{Byte, Lexer, Mode};
use em_base::{NoMemory, Text};
use em_lexeme::What;
use em_lexeme::bytes::is_dropped;
use em_lexeme::frame::{
    is_backquotes, is_backquotes_quoted, is_escaped_in, is_list, is_quoting, is_single,
};
use std::alloc::Global;

/// Whether it is a comment.
fn is_comment(mode: Mode) -> bool
    ensures { result ≡ quotes.is_comment mode }
{
    matches!(mode, Mode::Comment)
}

/// Whether it is the begin of a word.
fn is_head(mode: Mode) -> bool
    ensures { result ≡ quotes.is_head mode }
{
    matches!(mode, Mode::Head)
}

/// Whether bytes of a word are gathered.
fn is_gathering(mode: Mode) -> bool
    ensures { result ≡ quotes.is_gathering mode }
{
    matches!(mode, Mode::Gathering)
}

impl Lexer {
    /// Begins a word at `at`, where none is begun.
    fn enter_from(&mut self, at: usize) -> Result<(), NoMemory>
        ensures { OnOk result (self.new ≡ quotes.entered_from self.old at) }
    {
        if is_list(self.top()) {
            return self.enter(at);
        }
        Ok(())
    }

    /// Begins a piece of a word at `at`, and the word where none is begun.
    #[tactic(auto, unfolding(crate::specs::Quotes::piece_begun))]
    pub(crate) fn begin_piece(&mut self, alloc: Global, at: usize) -> Result<(), NoMemory>
        ensures { OnOk result (self.new ≡ quotes.piece_begun self.old at) }
    {
        if is_head(self.mode) {
            return self.front(alloc, at);
        }
        self.settle(alloc, at)?;
        self.enter_from(at)
    }

    /// Gathers a byte behind a backslash within double quotes, and the backslash where it stays.
    fn keep_escape(&mut self, b: Byte) -> Result<(), NoMemory>
        ensures { OnOk result (self.new ≡ quotes.kept_escape self.old b) }
    {
        if !is_escaped_in(self.top(), b.code) {
            self.gather(b'\\')?;
        }
        self.gather(b.code)
    }

    /// Begins to gather bytes at `at`, where that isn't begun.
    fn gather_from(&mut self, alloc: Global, at: usize)
        ensures { self.new ≡ quotes.gathering_at self.old at }
    {
        if !is_gathering(self.mode) {
            self.begin(alloc, Mode::Gathering, at);
        }
    }

    /// Reads the byte behind a backslash, where a piece of a word may begin.
    fn escape_in(&mut self, alloc: Global, b: Byte) -> Result<(), NoMemory>
        ensures { OnOk result (self.new ≡ quotes.escaped_in self.old b) }
    {
        let at = b.at.saturating_sub(1);
        if is_quoting(self.top()) {
            self.gather_from(alloc, at);
            return self.keep_escape(b);
        }
        let quoted = true;
        let text = Text::from_slice(alloc, &[b.code])?;
        self.emit(at, b.end, What::Bytes { quoted, text })
    }

    /// Reads the byte behind a backslash.
    #[tactic(auto, unfolding(crate::specs::Quotes::escaped))]
    fn escape(&mut self, alloc: Global, b: Byte) -> Result<(), NoMemory>
        ensures { OnOk result (self.new ≡ quotes.escaped self.old b) }
    {
        if is_gathering(self.mode) && is_quoting(self.top()) {
            return self.escape_in(alloc, b);
        }
        self.begin_piece(alloc, b.at.saturating_sub(1))?;
        self.escape_in(alloc, b)
    }

    /// Gathers a byte of the text in backquotes, which stands at `at`.
    fn keep(&mut self, byte: u8, at: usize) -> Result<(), NoMemory>
        ensures { OnOk result (self.new ≡ quotes.kept self.old byte at) }
    {
        self.gather(byte)?;
        self.places.push(at)
    }

    /// Reads a byte in backquotes.
    #[tactic(auto, unfolding(crate::specs::Quotes::raw))]
    fn raw(&mut self, b: Byte) -> Result<(), NoMemory>
        ensures { OnOk result (self.new ≡ quotes.raw self.old b) }
    {
        if self.backslash {
            self.backslash = false;
            if !is_dropped(is_backquotes_quoted(self.top()), b.code) {
                self.keep(b'\\', b.at.saturating_sub(1))?;
            }
            return self.keep(b.code, b.at);
        }
        if b.code == b'\\' {
            self.backslash = true;
            return Ok(());
        }
        self.keep(b.code, b.at)
    }

    /// Whether a backslash means something.
    fn heeds_backslash(&self) -> bool
        ensures { result ≡ quotes.heeds_backslash self.now }
    {
        !(is_comment(self.mode) || is_single(self.top()))
    }

    /// Reads a byte by what the bytes before it have begun.
    fn step_by_mode(&mut self, alloc: Global, b: Byte) -> Result<(), NoMemory>
        ensures { OnOk result (self.new ≡ by_mode self.old.mode self.old b) }
    {
        match self.mode {
            Mode::Ready => self.ready(alloc, b),
            Mode::Comment => self.comment(alloc, b),
            Mode::Operating(first) => self.operating(alloc, first, b),
            Mode::Head => self.heading(alloc, b),
            Mode::Gathering => self.gathering(alloc, b),
            Mode::Dollar => self.dollar(alloc, b),
            Mode::Naming => self.naming(alloc, b),
            Mode::Opened => self.behind_opened(alloc, b),
            Mode::Brace => self.brace(alloc, b),
            Mode::Status => self.status(alloc, b),
            Mode::Length => self.in_length(alloc, b),
            Mode::Parameter => self.parameter(alloc, b),
            Mode::Colon => self.colon(alloc, b),
            Mode::Trim(first) => self.trim(alloc, first, b),
        }
    }

    /// Reads a byte that doesn't close backquotes.
    #[tactic(auto, unfolding(crate::specs::Quotes::step))]
    pub(crate) fn step(&mut self, alloc: Global, b: Byte) -> Result<(), NoMemory>
        ensures { OnOk result (self.new ≡ quotes.step self.old b) }
    {
        if is_backquotes(self.top()) {
            return self.raw(b);
        }
        if self.backslash {
            self.backslash = false;
            if b.code == b'\n' {
                return Ok(());
            }
            return self.escape(alloc, b);
        }
        if b.code == b'\\' && self.heeds_backslash() {
            self.backslash = true;
            return Ok(());
        }
        self.step_by_mode(alloc, b)
    }
}
