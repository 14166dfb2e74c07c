//! The lexemes of a line.

ghost use Rattle.std.specs.Prelude.{◌≡◌, option_map, IfOk, OnOk};
ghost use Rattle.em_lexeme.specs.Places as moving;
ghost use Rattle.em_lex.specs.Lexing as lexing;
ghost use Rattle.em_lex.specs.Lexing.{lexed_in, read_through};

use crate::state::{Byte, Lexer};
use em_base::{Construct, NoMemory, Seq, Text};
use em_lexeme::fault::{leftmost, up_to};
use em_lexeme::frame::{is_backquotes, is_quoted, is_word, outermost_of};
use em_lexeme::place::{add_moved, moved_fault, place_behind};
use em_lexeme::{LexNo, Lexed, What};
use std::alloc::Global;
use std::mem;

/// How many backquotes may stand in one another.
const LEVELS: u32 = 64;

/// What was found, where the text is read to its end.
fn outcome(lexer: Lexer) -> Lexed
    ensures { result ≡ lexing.outcome lexer }
{
    let Lexer {
        items,
        fault,
        frames,
        spot: _,
        mode: _,
        backslash: _,
        start: _,
        text: _,
        places: _,
    } = lexer;
    up_to(leftmost(outermost_of(frames), fault), items)
}

impl Lexer {
    /// Whether the byte closes backquotes.
    fn closes_backquotes(&self, byte: u8) -> bool
        ensures { result ≡ lexing.closes_backquotes self.now byte }
    {
        is_backquotes(self.top()) && !self.backslash && byte == b'`'
    }

    /// Notes the fault of the text in backquotes, where it has one.
    fn note_moved(&mut self, places: &[usize], close: usize, stop: Option<LexNo>)
        ensures { self.new
            ≡ lexing.with_fault (option_map (moving.moved_fault places.now close) stop) self.old }
    {
        if let Some(fault) = stop {
            self.note(moved_fault(places, close, fault));
        }
    }

    /// Puts what stands between two backquotes, as it is read by itself.
    #[tactic(auto, unfolding(crate::specs::Lexing::embedded))]
    fn embed(&mut self, alloc: Global, inner: Lexed, b: Byte) -> Result<(), NoMemory>
        ensures { OnOk result (self.new ≡ lexing.embedded inner self.old b) }
    {
        self.pop();
        let quoted = is_quoted(self.top());
        let behind = place_behind(self.start, 1, b.at);
        self.emit(self.start, behind, What::SubstitutionStart { quoted })?;
        let places = mem::replace(&mut self.places, Seq::new(alloc));
        let Lexed { items, stop } = inner;
        add_moved(&mut self.items, items.into_vec(), places.items(), b.at)?;
        self.text = Text::new(alloc);
        self.emit(b.at, b.end, What::SubstitutionEnd)?;
        self.note_moved(places.items(), b.at, stop);
        Ok(())
    }

    /// Puts a backslash that is the last byte.
    fn end_backslash(&mut self, alloc: Global, at: usize) -> Result<(), NoMemory>
        ensures { OnOk result (self.new ≡ lexing.last_backslash self.old at) }
    {
        if !self.backslash {
            return Ok(());
        }
        self.backslash = false;
        let before = at.saturating_sub(1);
        self.begin_piece(alloc, before)?;
        let quoted = true;
        let text = Text::from_slice(alloc, b"\\")?;
        self.emit(before, at, What::Bytes { quoted, text })
    }

    /// Ends what is begun at the end of the text.
    #[tactic(auto, unfolding(crate::specs::Lexing::finished))]
    fn finish(&mut self, alloc: Global, at: usize) -> Result<(), NoMemory>
        ensures { OnOk result (self.new ≡ lexing.finished self.old at) }
    {
        self.end_backslash(alloc, at)?;
        self.settle(alloc, at)?;
        if is_word(self.top()) {
            return self.leave(at);
        }
        Ok(())
    }
}

/// Reads the bytes of a text, in which backquotes stand in one another on so many levels at most.
#[cycle(reading)]
fn read_bytes(alloc: Global, lexer: &mut Lexer, text: &[u8], left: u32) -> Result<(), NoMemory>
    ensures { OnOk result (lexer.new ≡ read_through (lexed_in left) lexer.old text.now) }
{
    for (at, code) in text.iter().enumerate() {
        let code = *code;
        let end = at + 1;
        let b = Byte { code, at, end };
        if lexer.closes_backquotes(code) {
            let inner = read(alloc, lexer.text.bytes(), left)?;
            lexer.embed(alloc, inner, b)?;
        } else {
            lexer.step(alloc, b)?;
        }
    }
    lexer.finish(alloc, text.len())
}

/// The lexemes of a text, with so many levels of backquotes.
#[cycle(reading)]
fn read(alloc: Global, text: &[u8], left: u32) -> Result<Lexed, NoMemory>
    ensures { IfOk result (λ l. l ≡ lexed_in left text.now) }
{
    if left == 0 {
        let items = Seq::new(alloc);
        let stop = Some(LexNo::Refused(Construct::Depth, 0));
        return Ok(Lexed { items, stop });
    }
    let mut lexer = Lexer::new(alloc);
    read_bytes(alloc, &mut lexer, text, left - 1)?;
    Ok(outcome(lexer))
}

/// The lexemes of the line up to its leftmost fault, and that fault. The line is read once from the
/// left, and what stands in backquotes once more for each level of these. `NoMemory` is the only
/// error.
#[tactic(auto, unfolding(crate::specs::Lexing::lexed))]
pub fn lexemes(alloc: Global, line: &[u8]) -> Result<Lexed, NoMemory>
    ensures { IfOk result (λ l. l ≡ lexing.lexed line.now) }
{
    read(alloc, line, LEVELS)
}
