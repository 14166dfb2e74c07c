//! Values: what begins with `$`.
ghost use Rattle.std.specs.Prelude.{◌≡◌, OnOk};
ghost use Rattle.em_lex.specs.Values as values;

use crate::state::{Lexer, Mode};
use em_base::{Construct, NoMemory, Text};
use em_lexeme::What;
use em_lexeme::frame::{Frame, is_quoted, is_quoting};
use em_lexeme::spot::Spot;
use std::alloc::Global;

impl Lexer {
    /// Puts the value of the name that was gathered, with this form.
    #[tactic(auto, unfolding(crate::specs::Values::valued))]
    pub(crate) fn put_value(
        &mut self,
        alloc: Global,
        form: &[u8],
        to: usize,
    ) -> Result<(), NoMemory>
        ensures { OnOk result (self.new ≡ values.valued self.old form.now to) }
    {
        let quoted = is_quoted(self.top());
        let name = self.take_text(alloc);
        let form = Text::from_slice(alloc, form)?;
        self.emit(self.start, to, What::Value { quoted, name, form })
    }

    /// Goes on with the argument of the value that began where the state says.
    fn open_argument(&mut self, alloc: Global, quoted: bool) -> Result<(), NoMemory>
        ensures { OnOk result (self.new ≡ values.in_argument quoted self.old) }
    {
        self.spend(alloc);
        self.push(Frame::Argument(self.start, quoted))
    }

    /// Puts the begin of a value with an argument: the gathered name and this form.
    fn put_start(&mut self, alloc: Global, form: &[u8], to: usize) -> Result<(), NoMemory>
        ensures { OnOk result (self.new ≡ values.with_start self.old form.now to) }
    {
        let quoted = is_quoted(self.top());
        let name = self.take_text(alloc);
        let form = Text::from_slice(alloc, form)?;
        self.emit(self.start, to, What::ArgumentStart { quoted, name, form })
    }

    /// Opens an argument that is a word: within double quotes it is read as there.
    #[tactic(auto, unfolding(crate::specs::Values::with_word))]
    pub(crate) fn open_word(
        &mut self,
        alloc: Global,
        form: &[u8],
        to: usize,
    ) -> Result<(), NoMemory>
        ensures { OnOk result (self.new ≡ values.with_word self.old form.now to) }
    {
        let quoted = is_quoting(self.top());
        self.put_start(alloc, form, to)?;
        self.open_argument(alloc, quoted)
    }

    /// Opens an argument that is a pattern: it is read as outside quotes.
    #[tactic(auto, unfolding(crate::specs::Values::with_pattern))]
    pub(crate) fn open_pattern(
        &mut self,
        alloc: Global,
        form: &[u8],
        to: usize,
    ) -> Result<(), NoMemory>
        ensures { OnOk result (self.new ≡ values.with_pattern self.old form.now to) }
    {
        self.put_start(alloc, form, to)?;
        self.open_argument(alloc, false)
    }

    /// Puts a `${` that no value begins with.
    #[tactic(auto, unfolding(crate::specs::Values::spoiled))]
    pub(crate) fn spoil(&mut self, alloc: Global, to: usize) -> Result<(), NoMemory>
        ensures { OnOk result (self.new ≡ values.spoiled self.old to) }
    {
        let quoted = is_quoting(self.top());
        self.emit(self.start, to, What::BadValue)?;
        self.open_argument(alloc, quoted)
    }

    /// Refuses `${` and a parameter that isn't supported.
    #[tactic(auto, unfolding(crate::specs::Values::positional))]
    pub(crate) fn refuse_positional(&mut self, alloc: Global) -> Result<(), NoMemory>
        ensures { OnOk result (self.new ≡ values.positional self.old) }
    {
        let quoted = is_quoting(self.top());
        self.refuse(Construct::Positional, self.start);
        self.open_argument(alloc, quoted)
    }

    /// Opens a command substitution.
    #[tactic(auto, unfolding(crate::specs::Values::substituted))]
    pub(crate) fn substitute(&mut self, to: usize) -> Result<(), NoMemory>
        ensures { OnOk result (self.new ≡ values.substituted self.old to) }
    {
        let quoted = is_quoted(self.top());
        self.emit(self.start, to, What::SubstitutionStart { quoted })?;
        self.push(Frame::Substitution(self.start, self.spot))?;
        self.spot = Spot::Command;
        self.turn(Mode::Opened);
        Ok(())
    }
}
