//! What each byte does behind `$`.
ghost use Rattle.std.specs.Prelude.{◌≡◌, OnOk};
ghost use Rattle.em_lex.specs.Modes as modes;

use crate::state::{Byte, Lexer, Mode};
use em_base::{Construct, NoMemory};
use em_lexeme::bytes::{begins_name, is_in_name, is_special, takes_word};
use std::alloc::Global;

impl Lexer {
    /// Reads a byte behind `$`.
    #[tactic(auto, unfolding(crate::specs::Modes::dollar))]
    pub(crate) fn dollar(&mut self, alloc: Global, b: Byte) -> Result<(), NoMemory>
        ensures { OnOk result (self.new ≡ modes.dollar self.old b) }
    {
        if b.code == b'(' {
            return self.substitute(b.end);
        }
        if b.code == b'{' {
            self.turn(Mode::Brace);
            return Ok(());
        }
        if begins_name(b.code) {
            self.turn(Mode::Naming);
            return self.gather(b.code);
        }
        if b.code == b'?' {
            return self.put_value(alloc, b"?", b.end);
        }
        if is_special(b.code) {
            self.refuse(Construct::Positional, self.start);
            self.spend(alloc);
            return Ok(());
        }
        self.turn(Mode::Gathering);
        self.gather(b'$')?;
        self.gathering(alloc, b)
    }

    /// Reads a byte in `$name`.
    #[tactic(auto, unfolding(crate::specs::Modes::naming))]
    pub(crate) fn naming(&mut self, alloc: Global, b: Byte) -> Result<(), NoMemory>
        ensures { OnOk result (self.new ≡ modes.naming self.old b) }
    {
        if is_in_name(b.code) {
            return self.gather(b.code);
        }
        self.put_value(alloc, b"", b.at)?;
        self.ready(alloc, b)
    }

    /// Reads a byte behind `$(`.
    #[tactic(auto, unfolding(crate::specs::Modes::behind_opened))]
    pub(crate) fn behind_opened(&mut self, alloc: Global, b: Byte) -> Result<(), NoMemory>
        ensures { OnOk result (self.new ≡ modes.behind_opened self.old b) }
    {
        if b.code == b'(' {
            self.refuse(Construct::Arithmetic, self.start);
        }
        self.turn(Mode::Ready);
        self.ready(alloc, b)
    }

    /// Reads a byte that can't stand in the `${` before it.
    fn spoil_at(&mut self, alloc: Global, b: Byte) -> Result<(), NoMemory>
        ensures { OnOk result (self.new ≡ modes.spoiled_at self.old b) }
    {
        self.spoil(alloc, b.at)?;
        self.ready(alloc, b)
    }

    /// Reads a byte behind `${`.
    #[tactic(auto, unfolding(crate::specs::Modes::brace))]
    pub(crate) fn brace(&mut self, alloc: Global, b: Byte) -> Result<(), NoMemory>
        ensures { OnOk result (self.new ≡ modes.brace self.old b) }
    {
        if begins_name(b.code) {
            self.turn(Mode::Parameter);
            return self.gather(b.code);
        }
        if b.code == b'#' {
            self.turn(Mode::Length);
            return Ok(());
        }
        if b.code == b'?' {
            self.turn(Mode::Status);
            return Ok(());
        }
        if is_special(b.code) {
            return self.refuse_positional(alloc);
        }
        self.spoil_at(alloc, b)
    }

    /// Reads a byte behind `${?`.
    #[tactic(auto, unfolding(crate::specs::Modes::status))]
    pub(crate) fn status(&mut self, alloc: Global, b: Byte) -> Result<(), NoMemory>
        ensures { OnOk result (self.new ≡ modes.status self.old b) }
    {
        if b.code == b'}' {
            return self.put_value(alloc, b"?", b.end);
        }
        self.spoil_at(alloc, b)
    }

    /// Reads a byte behind `${#`.
    fn first_of_length(&mut self, alloc: Global, b: Byte) -> Result<(), NoMemory>
        ensures { OnOk result (self.new ≡ modes.first_of_length self.old b) }
    {
        if begins_name(b.code) {
            return self.gather(b.code);
        }
        self.refuse_positional(alloc)?;
        self.ready(alloc, b)
    }

    /// Reads a byte behind `${#` and some of a name.
    fn more_of_length(&mut self, alloc: Global, b: Byte) -> Result<(), NoMemory>
        ensures { OnOk result (self.new ≡ modes.more_of_length self.old b) }
    {
        if is_in_name(b.code) {
            return self.gather(b.code);
        }
        if b.code == b'}' {
            return self.put_value(alloc, b"#", b.end);
        }
        self.spoil_at(alloc, b)
    }

    /// Reads a byte behind `${#`, and a name where some of it is read.
    #[tactic(auto, unfolding(crate::specs::Modes::in_length))]
    pub(crate) fn in_length(&mut self, alloc: Global, b: Byte) -> Result<(), NoMemory>
        ensures { OnOk result (self.new ≡ modes.in_length self.old b) }
    {
        if self.text.bytes().is_empty() {
            return self.first_of_length(alloc, b);
        }
        self.more_of_length(alloc, b)
    }

    /// Reads a byte in `${name`.
    #[tactic(auto, unfolding(crate::specs::Modes::parameter))]
    pub(crate) fn parameter(&mut self, alloc: Global, b: Byte) -> Result<(), NoMemory>
        ensures { OnOk result (self.new ≡ modes.parameter self.old b) }
    {
        if is_in_name(b.code) {
            return self.gather(b.code);
        }
        if b.code == b'}' {
            return self.put_value(alloc, b"", b.end);
        }
        if takes_word(b.code) {
            return self.open_word(alloc, &[b.code], b.end);
        }
        if b.code == b':' {
            self.turn(Mode::Colon);
            return Ok(());
        }
        if b.code == b'%' || b.code == b'#' {
            self.turn(Mode::Trim(b.code));
            return Ok(());
        }
        self.spoil_at(alloc, b)
    }

    /// Reads a byte behind `${name:`.
    #[tactic(auto, unfolding(crate::specs::Modes::colon))]
    pub(crate) fn colon(&mut self, alloc: Global, b: Byte) -> Result<(), NoMemory>
        ensures { OnOk result (self.new ≡ modes.colon self.old b) }
    {
        if takes_word(b.code) {
            return self.open_word(alloc, &[b':', b.code], b.end);
        }
        self.spoil_at(alloc, b)
    }

    /// Reads a byte behind `${name%` or `${name#`.
    #[tactic(auto, unfolding(crate::specs::Modes::trim))]
    pub(crate) fn trim(&mut self, alloc: Global, first: u8, b: Byte) -> Result<(), NoMemory>
        ensures { OnOk result (self.new ≡ modes.trim first self.old b) }
    {
        if b.code == first {
            return self.open_pattern(alloc, &[first, first], b.end);
        }
        self.open_pattern(alloc, &[first], b.at)?;
        self.ready(alloc, b)
    }
}
