//! Histories.
ghost use Rattle.std.specs.Prelude.{◌≡◌, ◌<◌, ℕ, List, [], true, false, All, IfOk, IsOk, OnOk, OnErr, length, if◌then◌else◌, Ok};
ghost use Rattle.std.specs.List.{Contains};
ghost use Rattle.em_history.specs.Histories.{IsHistory, fits, placed, united, collected, reading, framed, text_of, limit};

use crate::pair::{copies, fits, gather, join, place};
use crate::text::{END, HEAD, LIMIT, pairs_of, push_line};
use em_base::{NoMemory, Text};
use std::alloc::Global;
use std::marker::Model;

/// Pairs of names, of what was made and of what it needed, in byte order of their lines
/// `MADE NEEDED\n`, each once. Contracts see the list of the pairs.
#[derive(Debug, Drop)]
pub struct History {
    held: Vec<(Text, Text)>,
}

impl Model for History {
    ghost use Rattle.em_history.specs.Histories.{Pair, IsHistory};
    ghost use Rattle.std.specs.Prelude.{List};

    ghost Value = { List Pair };

    ghost view = { λ h. h.held.items };

    ghost invariant = { λ h. IsHistory h.held.items };
}

impl History {
    /// No pairs.
    pub fn new(alloc: Global) -> History
        ensures { result ≡ [] }
    {
        History {
            held: Vec::new(alloc),
        }
    }

    /// A history of those of the pairs of which both names fit (`is_name`). n pairs take the steps
    /// of sorting them: n log n comparisons of lines.
    pub fn of(mut pairs: Vec<(Text, Text)>) -> Result<History, NoMemory>
        ensures { IfOk result (λ h. h ≡ collected pairs.items) }
    {
        pairs.retain(fits);
        gather(&mut pairs)?;
        Ok(History { held: pairs })
    }

    /// Adds the pair, unless it is there. False exactly where a name doesn't fit (`is_name`); then
    /// nothing changes, nor does it for want of memory. A binary search, and the pairs behind it
    /// move by one place.
    pub fn add(&mut self, target: Text, needed: Text) -> Result<bool, NoMemory>
        ensures fits { IfOk result (λ b. b ≡ fits (target, needed)) }
        ensures ok { OnOk result (self.new ≡
            (if fits (target, needed) then placed (target, needed) self.old else self.old)) }
        ensures err { OnErr result (self.new ≡ self.old) }
        ensures refused { fits (target, needed) ≡ false → result ≡ Ok false }
        ensures there { Contains self.old (target, needed) → IsOk result }
    {
        let pair = (target, needed);
        if !fits(&pair) {
            return Ok(false);
        }
        place(&mut self.held, pair)?;
        Ok(true)
    }

    /// The pairs in order.
    pub fn pairs(&self) -> &[(Text, Text)]
        ensures pairs { result.now ≡ self.now }
        ensures history { IsHistory self.now }
    {
        self.held.as_slice()
    }

    /// The history of which this is the text; the empty one where the bytes are no history's text,
    /// or more than 16,777,216. Linear in the bytes. Without the head or the end no memory is asked
    /// for.
    pub fn read(alloc: Global, bytes: &[u8]) -> Result<History, NoMemory>
        ensures history { IfOk result (λ h. h ≡ reading bytes.now) }
        ensures long { limit < length bytes.now → IsOk result }
        ensures strange { ((body : List ℕ) → framed body ≡ bytes.now → ⊥) → IsOk result }
    {
        if bytes.len() > LIMIT {
            return Ok(History::new(alloc));
        }
        match pairs_of(alloc, bytes)? {
            Some(held) => Ok(History { held }),
            None => Ok(History::new(alloc)),
        }
    }

    /// Its text: `EMHIST 1\n`, a line for each pair, `.\n`. Linear in the text.
    pub fn write(&self, alloc: Global) -> Result<Text, NoMemory>
        ensures { IfOk result (λ t. t ≡ text_of self.now) }
    {
        let mut text = Text::from_slice(alloc, HEAD)?;
        for pair in self.pairs() {
            push_line(&mut text, pair)?;
        }
        text.add(END)?;
        Ok(text)
    }

    /// Adds the other's pairs. For want of memory nothing changes. Linear in the lines of both.
    pub fn merge(&mut self, alloc: Global, other: &History) -> Result<(), NoMemory>
        ensures ok { OnOk result (self.new ≡ united other.now self.old) }
        ensures err { OnErr result (self.new ≡ self.old) }
    {
        let mut more = copies(alloc, other.pairs())?;
        join(&mut self.held, &mut more)
    }
}
