//! Operators and brackets, as they are put.
ghost use Rattle.std.specs.Prelude.{◌≡◌, slice_get, OnOk};
ghost use Rattle.em_lexeme.specs.Frames.{without_cases};
ghost use Rattle.em_lexeme.specs.Spots.{cases_in};
ghost use Rattle.em_lex.specs.Brackets as brackets;

use crate::state::{Byte, Lexer};
use em_base::{Construct, NoMemory};
use em_lexeme::frame::{Frame, is_cases};
use em_lexeme::operator::zero_before;
use em_lexeme::spot::{Spot, closes_cases, is_item, is_pattern, opens_cases, spot_behind};
use em_lexeme::{Start, What};
use std::alloc::Global;

impl Lexer {
    /// Opens a `case`, or closes one, where the word does so.
    pub(crate) fn put_cases(&mut self, start: Start) -> Result<(), NoMemory>
        ensures { OnOk result (self.new
            ≡ record self.old { frames = cases_in self.old.spot start self.old.frames }) }
    {
        if opens_cases(self.spot, start) {
            return self.push(Frame::Cases);
        }
        if closes_cases(self.spot, start) && is_cases(self.top()) {
            self.frames.pop();
        }
        Ok(())
    }

    /// Refuses `0>&`.
    fn refuse_zero(&mut self, what: &What)
        ensures { self.new ≡ brackets.without_zero what.now self.old }
    {
        if let What::GreatAnd = what {
            if let Some(at) = zero_before(self.items.items()) {
                self.refuse(Construct::Descriptor, at);
            }
        }
    }

    /// Puts an operator that ends at `end`.
    #[tactic(auto, unfolding(crate::specs::Brackets::operated))]
    pub(crate) fn operate(&mut self, alloc: Global, what: What, end: usize) -> Result<(), NoMemory>
        ensures { OnOk result (self.new ≡ brackets.operated self.old what end) }
    {
        self.refuse_zero(&what);
        self.spot = spot_behind(&what, self.top(), self.spot, self.start);
        self.emit(self.start, end, what)?;
        self.spend(alloc);
        Ok(())
    }

    /// Puts `(`.
    #[tactic(auto, unfolding(crate::specs::Brackets::round_opened))]
    pub(crate) fn open_round(&mut self, b: Byte) -> Result<(), NoMemory>
        ensures { OnOk result (self.new ≡ brackets.round_opened self.old b) }
    {
        self.emit(b.at, b.end, What::LeftParen)?;
        if is_item(self.spot) {
            self.spot = Spot::Pattern;
            return Ok(());
        }
        self.spot = Spot::Command;
        self.push(Frame::Round)
    }

    /// Forgets each `case` that is open within the innermost bracket.
    fn drop_cases(&mut self)
        ensures { self.new ≡ record self.old { frames = without_cases self.old.frames } }
    {
        while is_cases(self.top()) {
            self.frames.pop();
        }
    }

    /// Puts the `)` that closes the innermost of what is open.
    fn close_by(&mut self, b: Byte) -> Result<(), NoMemory>
        ensures { OnOk result
            (self.new ≡ brackets.closed_by (slice_get self.old.frames 0) self.old b) }
    {
        match self.top() {
            Some(Frame::Substitution(_, spot)) => {
                self.pop();
                self.spot = spot;
                self.emit(b.at, b.end, What::SubstitutionEnd)
            }
            Some(Frame::Round) => {
                self.pop();
                self.spot = Spot::Closed;
                self.emit(b.at, b.end, What::RightParen)
            }
            _ => {
                self.spot = Spot::Command;
                self.emit(b.at, b.end, What::RightParen)
            }
        }
    }

    /// Puts `)`.
    #[tactic(auto, unfolding(crate::specs::Brackets::round_closed))]
    pub(crate) fn close_round(&mut self, b: Byte) -> Result<(), NoMemory>
        ensures { OnOk result (self.new ≡ brackets.round_closed self.old b) }
    {
        if is_pattern(self.spot) {
            self.spot = Spot::Command;
            return self.emit(b.at, b.end, What::RightParen);
        }
        self.drop_cases();
        self.close_by(b)
    }
}
