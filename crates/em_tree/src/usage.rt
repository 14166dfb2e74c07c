//! What a job has asked and was answered, in little room.
ghost use Rattle.std.specs.Prelude.{◌≡◌, ◌↔◌, ◌<◌, ◌≢◌, ◌++◌, ◌∷◌, [], List, IfOk, IfSome, OnOk, OnErr, IsTrue, option_copied, vec_len, vec_capacity};
ghost use Rattle.em_tree.specs.Answers.{answer, Agrees};
ghost use Rattle.em_tree.specs.declared.usage.Look.{Look};
ghost use Rattle.em_tree.specs.Usages.{no_link, clear_links, path_in, cleared, entries_of, flat};

use crate::question::{Answer, Entry, Question};
use crate::state::State;
use crate::way::{LEVELS, dir_of};
use em_base::NoMemory;
use em_path::Path;
use std::alloc::Global;
use std::marker::Model;
use std::mem::drop;

/// Which paths were asked for a link before an entry's question, from the top, and were none.
#[derive(Clone, Copy, Debug, PartialEq, Eq)]
pub enum Clear {
    /// The parent of the entry's path and what is above that, so many paths in all.
    Above(u32),
    /// The entry's path and what is above it, so many paths in all.
    Through(u32),
}

/// An entry, behind those that found no link on its way.
#[derive(Debug, Drop)]
pub struct Look {
    pub clear: Clear,
    pub entry: Entry,
}

/// Questions with their answers, in order. A walk that met no link takes no room of its own, so a
/// usage holds about one look for each call of a desk, however deep the paths are. Contracts see
/// the list of entries.
#[derive(Drop)]
pub struct Usage {
    looks: Vec<Look>,
}

impl Model for Usage {
    ghost use Rattle.std.specs.Prelude.{List};
    ghost use Rattle.std.specs.Coded.{coded_list};
    ghost use Rattle.em_tree.specs.contracts.question.Entry as entry;
    ghost use Rattle.em_tree.specs.declared.question.Entry.{Entry};
    ghost use Rattle.em_tree.specs.declared.usage.Look.{Look};
    ghost use Rattle.em_tree.specs.Usages.{flat};

    ghost Value = { List Entry };

    ghost coded = { coded_list entry.the_row.coded };

    ghost view = { λ u. flat u.looks.items };
}

/// The path that a question is about; `None` of an outcome's. One step.
pub fn path_in(q: &Question) -> Option<&Path>
    ensures { option_copied result ≡ path_in q.now }
{
    match q {
        Question::Kind(p)
        | Question::Stamp(p)
        | Question::Content(p)
        | Question::Names(p)
        | Question::Link(p) => Some(p),
        Question::Outcome(_) => None,
    }
}

/// The path that was found to be no link, where the entry says that.
fn no_link_at(e: &Entry) -> Option<&Path>
    ensures { IfSome result (λ p. e.now ≡ no_link p.now) }
{
    match (&e.question, &e.answer) {
        (Question::Link(p), Answer::Link(None)) => Some(p),
        _ => None,
    }
}

/// What was clear on the way of this question, where the look stands for nothing but that.
fn goes_on(look: &Look, q: &Question) -> Option<Clear>
    ensures { IfSome result (λ clear. cleared clear (path_in q.now) ≡ entries_of look.now) }
{
    let Clear::Above(n) = look.clear else {
        return None;
    };
    let walked = no_link_at(&look.entry)?;
    let path = path_in(q)?;
    if n >= LEVELS {
        return None;
    }
    if path == walked {
        return Some(Clear::Through(n + 1));
    }
    if path.parent_text() == Some(walked.text()) {
        return Some(Clear::Above(n + 1));
    }
    None
}

/// What was clear on the way of this question, where the last look stands for nothing but that.
fn goes_on_last(looks: &[Look], q: &Question) -> Option<Clear>
    ensures some { IfSome result (λ clear. looks.now ≢ []) }
    ensures last { IfSome result (λ clear. (ls : List Look) (l : Look)
        → looks.now ≡ ls ++ l ∷ [] → cleared clear (path_in q.now) ≡ entries_of l) }
{
    match looks.last() {
        Some(last) => goes_on(last, q),
        None => None,
    }
}

/// Appends an entry. There must be room for one more look. Steps for the bytes of its path.
pub fn add_entry(looks: &mut Vec<Look>, entry: Entry)
    requires room { vec_len looks.old < vec_capacity looks.old }
    ensures { flat looks.new.items ≡ flat looks.old.items ++ entry ∷ [] }
{
    match goes_on_last(looks.as_slice(), &entry.question) {
        Some(clear) => {
            drop(looks.pop());
            looks.push_reserved(Look { clear, entry });
        }
        None => {
            looks.push_reserved(Look {
                clear: Clear::Above(0),
                entry,
            });
        }
    }
}

/// Appends that the path and what is above it, so many paths in all, are no links. It calls itself
/// for the parent, so at most once for each component of a path and once for the root.
fn push_clear(
    alloc: Global,
    left: u32,
    way: Option<Path>,
    entries: &mut Vec<Entry>,
) -> Result<(), NoMemory>
    ensures { OnOk result (entries.new.items ≡ entries.old.items ++ clear_links left way) }
{
    if left == 0 {
        return Ok(());
    }
    let Some(p) = way else {
        return Ok(());
    };
    push_clear(alloc, left - 1, dir_of(alloc, &p)?, entries)?;
    entries.push(Entry {
        question: Question::Link(p),
        answer: Answer::Link(None),
    })?;
    Ok(())
}

impl Look {
    /// The path up to which the way was clear, and how many paths that are.
    fn way(&self, alloc: Global) -> Result<(Option<Path>, u32), NoMemory>
        ensures { IfOk result (λ way.
            cleared self.now.clear (path_in self.now.entry.question) ≡ clear_links way.1 way.0) }
    {
        let Some(path) = path_in(&self.entry.question) else {
            return Ok((None, 0));
        };
        match self.clear {
            Clear::Through(n) => Ok((Some(path.copy()?), n)),
            Clear::Above(n) => Ok((dir_of(alloc, path)?, n)),
        }
    }

    /// Appends the entries that the look stands for.
    fn push_to(&self, alloc: Global, entries: &mut Vec<Entry>) -> Result<(), NoMemory>
        ensures { OnOk result (entries.new.items ≡ entries.old.items ++ entries_of self.now) }
    {
        let (way, n) = self.way(alloc)?;
        push_clear(alloc, n, way, entries)?;
        entries.push(self.entry.copy(alloc)?)?;
        Ok(())
    }
}

impl Usage {
    /// The usage of no question.
    pub fn new(alloc: Global) -> Usage
        ensures { result ≡ [] }
    {
        Usage {
            looks: Vec::new(alloc),
        }
    }

    /// The usage of these looks. It takes no memory.
    pub fn from_looks(looks: Vec<Look>) -> Usage
        ensures { result ≡ flat looks.items }
    {
        Usage { looks }
    }

    /// The looks.
    pub fn looks(&self) -> &[Look]
        ensures { flat result.now ≡ self.now }
    {
        self.looks.as_slice()
    }

    /// Appends an entry. Steps for the bytes of its path.
    pub fn push(&mut self, entry: Entry) -> Result<(), NoMemory>
        ensures ok { OnOk result (self.new ≡ self.old ++ entry ∷ []) }
        ensures err { OnErr result (self.new ≡ self.old) }
    {
        self.looks.reserve(1)?;
        add_entry(&mut self.looks, entry);
        Ok(())
    }

    /// The entries, one by one. Steps for each of them.
    pub fn entries(&self, alloc: Global) -> Result<Vec<Entry>, NoMemory>
        ensures { IfOk result (λ entries. entries.items ≡ self.now) }
    {
        let mut entries = Vec::with_capacity(alloc, self.looks.len())?;
        for look in &self.looks {
            look.push_to(alloc, &mut entries)?;
        }
        Ok(entries)
    }
}

impl State {
    /// Whether the path and what is above it, so many paths in all, are no links.
    fn is_clear(&self, alloc: Global, n: u32, way: Option<Path>) -> Result<bool, NoMemory>
        ensures { IfOk result (λ clear. IsTrue clear ↔ Agrees self.now (clear_links n way)) }
    {
        let mut left = n;
        let mut at = way;
        while left > 0 {
            let Some(p) = at else {
                return Ok(true);
            };
            match self.tree.link(&p) {
                Some(_) => return Ok(false),
                None => at = dir_of(alloc, &p)?,
            }
            left -= 1;
        }
        Ok(true)
    }

    /// Whether the state answers as the look says.
    fn agrees_with(&self, alloc: Global, look: &Look) -> Result<bool, NoMemory>
        ensures { IfOk result (λ agrees. IsTrue agrees ↔ Agrees self.now (entries_of look.now)) }
    {
        if !self.agrees(&look.entry) {
            return Ok(false);
        }
        if self.tree.is_bare() {
            return Ok(true);
        }
        let (way, n) = look.way(alloc)?;
        self.is_clear(alloc, n, way)
    }

    /// Whether the state answers each question as the usage says. Steps for each look as an answer
    /// takes, and where there are links for each entry.
    pub fn agrees_all(&self, alloc: Global, usage: &Usage) -> Result<bool, NoMemory>
        ensures { IfOk result (λ agrees. IsTrue agrees ↔ Agrees self.now usage.now) }
    {
        for look in &usage.looks {
            if !self.agrees_with(alloc, look)? {
                return Ok(false);
            }
        }
        Ok(true)
    }
}
