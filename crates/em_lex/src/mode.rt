//! What each byte does, by what the bytes before it have begun.
ghost use Rattle.std.specs.Prelude.{◌≡◌, [], ◌∷◌, OnOk};
ghost use Rattle.em_lex.specs.Modes as modes;

use crate::state::{Byte, Lexer, Mode};
use em_base::{Construct, NoMemory, Text, is_blank};
use em_lexeme::What;
use em_lexeme::bytes::{acts, begins_operator, ends_word};
use em_lexeme::frame::{
    Frame, is_double, is_list, is_ordinary, is_quoted, is_quoting, is_single, is_word,
};
use em_lexeme::operator::{pair, refused_pair, single};
use em_lexeme::spot::{Spot, spot_behind};
use std::alloc::Global;

impl Lexer {
    /// Puts a newline outside of words.
    fn break_line(&mut self, b: Byte) -> Result<(), NoMemory>
        ensures { OnOk result (self.new ≡ modes.broken self.old b) }
    {
        self.spot = spot_behind(&What::Newline, self.top(), self.spot, b.at);
        self.emit(b.at, b.end, What::Newline)
    }

    /// Reads a byte in a list, outside of words.
    #[tactic(auto, unfolding(crate::specs::Modes::between))]
    fn between(&mut self, alloc: Global, b: Byte) -> Result<(), NoMemory>
        ensures { OnOk result (self.new ≡ modes.between self.old b) }
    {
        if is_blank(b.code) {
            return Ok(());
        }
        if b.code == b'\n' {
            return self.break_line(b);
        }
        if b.code == b'#' {
            self.turn(Mode::Comment);
            return Ok(());
        }
        if b.code == b'(' {
            return self.open_round(b);
        }
        if b.code == b')' {
            return self.close_round(b);
        }
        if begins_operator(b.code) {
            self.begin(alloc, Mode::Operating(b.code), b.at);
            return Ok(());
        }
        self.begin(alloc, Mode::Head, b.at);
        self.gather(b.code)
    }

    /// Opens quotes or backquotes.
    fn open_quote(&mut self, alloc: Global, frame: Frame, b: Byte) -> Result<(), NoMemory>
        ensures { OnOk result (self.new ≡ modes.quote_opened frame b self.old) }
    {
        self.begin(alloc, Mode::Gathering, b.at);
        self.push(frame)
    }

    /// Reads a byte that doesn't stand for itself, within a word.
    #[tactic(auto, unfolding(crate::specs::Modes::special))]
    fn special(&mut self, alloc: Global, b: Byte) -> Result<(), NoMemory>
        ensures { OnOk result (self.new ≡ modes.special self.old b) }
    {
        if b.code == b'\'' {
            if !is_single(self.top()) {
                return self.open_quote(alloc, Frame::Single(b.at), b);
            }
            self.pop();
            return Ok(());
        }
        if b.code == b'"' {
            if !is_double(self.top()) {
                return self.open_quote(alloc, Frame::Double(b.at), b);
            }
            self.pop();
            return Ok(());
        }
        if b.code == b'$' {
            self.begin(alloc, Mode::Dollar, b.at);
            return Ok(());
        }
        if b.code == b'`' {
            let quoting = is_quoting(self.top());
            return self.open_quote(alloc, Frame::Backquotes(b.at, quoting), b);
        }
        self.emit(b.at, b.end, What::ArgumentEnd)?;
        self.pop();
        Ok(())
    }

    /// Ends the word at `at`.
    pub(crate) fn leave(&mut self, at: usize) -> Result<(), NoMemory>
        ensures { OnOk result (self.new ≡ modes.left self.old at) }
    {
        self.emit(at, at, What::WordEnd)?;
        self.pop();
        Ok(())
    }

    /// Reads a byte in a list, where nothing is begun.
    fn listed(&mut self, alloc: Global, b: Byte) -> Result<(), NoMemory>
        ensures { OnOk result (self.new ≡ modes.listed self.old b) }
    {
        if acts(b.code) {
            self.enter(b.at)?;
            return self.special(alloc, b);
        }
        self.between(alloc, b)
    }

    /// Reads a byte where nothing is begun.
    #[tactic(auto, unfolding(crate::specs::Modes::ready))]
    pub(crate) fn ready(&mut self, alloc: Global, b: Byte) -> Result<(), NoMemory>
        ensures { OnOk result (self.new ≡ modes.ready self.old b) }
    {
        if is_list(self.top()) {
            return self.listed(alloc, b);
        }
        if is_ordinary(self.top(), b.code) {
            self.begin(alloc, Mode::Gathering, b.at);
            return self.gather(b.code);
        }
        if is_word(self.top()) && ends_word(b.code) {
            self.leave(b.at)?;
            return self.between(alloc, b);
        }
        self.special(alloc, b)
    }

    /// Puts the bytes that were gathered as a piece.
    fn put_piece(&mut self, alloc: Global, to: usize) -> Result<(), NoMemory>
        ensures { OnOk result (self.new ≡ modes.pieced self.old self.old.text to) }
    {
        let quoted = is_quoted(self.top());
        let text = self.take_text(alloc);
        self.emit(self.start, to, What::Bytes { quoted, text })
    }

    /// Whether no bytes were gathered, and the byte doesn't close quotes.
    fn is_none_yet(&self, byte: u8) -> bool
        ensures { result ≡ modes.is_none_yet self.now byte }
    {
        self.text.bytes().is_empty() && (byte == b'$' || byte == b'`')
    }

    /// Puts the bytes that were gathered before a byte, where they are a piece.
    fn put_piece_before(&mut self, alloc: Global, b: Byte) -> Result<(), NoMemory>
        ensures { OnOk result (self.new ≡ modes.pieced_before self.old b) }
    {
        if self.is_none_yet(b.code) {
            self.turn(Mode::Ready);
            return Ok(());
        }
        self.put_piece(alloc, b.at)
    }

    /// Puts a `$` that stands for itself.
    fn put_dollar(&mut self, alloc: Global, to: usize) -> Result<(), NoMemory>
        ensures { OnOk result (self.new ≡ modes.pieced self.old (36 ∷ []) to) }
    {
        let quoted = is_quoted(self.top());
        let text = Text::from_slice(alloc, b"$")?;
        self.spend(alloc);
        self.emit(self.start, to, What::Bytes { quoted, text })
    }

    /// Ends `${#`, or `${#` and a name, at `at`.
    fn settle_length(&mut self, alloc: Global, at: usize) -> Result<(), NoMemory>
        ensures { OnOk result (self.new ≡ modes.settled_length self.old at) }
    {
        if self.text.bytes().is_empty() {
            return self.refuse_positional(alloc);
        }
        self.spoil(alloc, at)
    }

    /// Ends what is begun at `at`.
    #[tactic(auto, unfolding(crate::specs::Modes::settled))]
    pub(crate) fn settle(&mut self, alloc: Global, at: usize) -> Result<(), NoMemory>
        ensures { OnOk result (self.new ≡ modes.settled self.old at) }
    {
        match self.mode {
            Mode::Ready => Ok(()),
            Mode::Comment | Mode::Opened => {
                self.turn(Mode::Ready);
                Ok(())
            }
            Mode::Operating(first) => self.operate(alloc, single(first), at),
            Mode::Head => self.tell(alloc, b'\n', at),
            Mode::Gathering => self.put_piece(alloc, at),
            Mode::Dollar => self.put_dollar(alloc, at),
            Mode::Naming => self.put_value(alloc, b"", at),
            Mode::Length => self.settle_length(alloc, at),
            Mode::Trim(byte) => self.open_pattern(alloc, &[byte], at),
            Mode::Brace | Mode::Status | Mode::Parameter | Mode::Colon => self.spoil(alloc, at),
        }
    }

    /// Reads a byte behind the first byte of an operator.
    #[tactic(auto, unfolding(crate::specs::Modes::operating))]
    pub(crate) fn operating(&mut self, alloc: Global, first: u8, b: Byte) -> Result<(), NoMemory>
        ensures { OnOk result (self.new ≡ modes.operating first self.old b) }
    {
        if let Some(what) = pair(first, b.code) {
            return self.operate(alloc, what, b.end);
        }
        if let Some(construct) = refused_pair(first, b.code) {
            self.refuse(construct, self.start);
            self.spend(alloc);
            self.spot = Spot::Operand;
            return self.emit(self.start, b.end, single(first));
        }
        self.operate(alloc, single(first), b.at)?;
        self.ready(alloc, b)
    }

    /// Reads a byte behind unquoted bytes at a word's begin.
    #[tactic(auto, unfolding(crate::specs::Modes::heading))]
    pub(crate) fn heading(&mut self, alloc: Global, b: Byte) -> Result<(), NoMemory>
        ensures { OnOk result (self.new ≡ modes.heading self.old b) }
    {
        if ends_word(b.code) {
            self.tell(alloc, b.code, b.at)?;
            return self.between(alloc, b);
        }
        if acts(b.code) {
            self.front(alloc, b.at)?;
            return self.special(alloc, b);
        }
        self.gather(b.code)
    }

    /// Reads a byte behind bytes that stand for themselves, within a word.
    #[tactic(auto, unfolding(crate::specs::Modes::gathering))]
    pub(crate) fn gathering(&mut self, alloc: Global, b: Byte) -> Result<(), NoMemory>
        ensures { OnOk result (self.new ≡ modes.gathering self.old b) }
    {
        if is_ordinary(self.top(), b.code) {
            return self.gather(b.code);
        }
        self.put_piece_before(alloc, b)?;
        self.ready(alloc, b)
    }

    /// Reads a byte in a comment.
    #[tactic(auto, unfolding(crate::specs::Modes::comment))]
    pub(crate) fn comment(&mut self, alloc: Global, b: Byte) -> Result<(), NoMemory>
        ensures { OnOk result (self.new ≡ modes.comment self.old b) }
    {
        if b.code != b'\n' {
            return Ok(());
        }
        self.turn(Mode::Ready);
        self.ready(alloc, b)
    }
}
