//! What can be asked, and what is answered.
ghost use Rattle.std.specs.Prelude.{◌≡◌, IfOk, OnErr, IsTrue};
ghost use Rattle.em_tree.specs.Answers.{holds_memory};

use crate::link::LinkText;
use crate::names::NameList;
use crate::node::{Body, Kind};
use crate::outcome::Outcome;
use em_base::{NoMemory, TryClone};
use em_path::Path;
use std::alloc::Global;

/// A question.
#[derive(Debug, Drop, PartialEq, Eq)]
pub enum Question {
    /// What stands at the path?
    Kind(Path),
    /// Which stamp has it?
    Stamp(Path),
    /// Which bytes has the file?
    Content(Path),
    /// Which names has the directory?
    Names(Path),
    /// What says the symbolic link?
    Link(Path),
    /// How did the job end?
    Outcome(u32),
}

impl Question {
    /// An equal question.
    pub fn copy(&self) -> Result<Question, NoMemory>
        ensures { IfOk result (λ q. q ≡ self.now) }
    {
        Ok(match self {
            Question::Kind(p) => Question::Kind(p.copy()?),
            Question::Stamp(p) => Question::Stamp(p.copy()?),
            Question::Content(p) => Question::Content(p.copy()?),
            Question::Names(p) => Question::Names(p.copy()?),
            Question::Link(p) => Question::Link(p.copy()?),
            Question::Outcome(k) => Question::Outcome(*k),
        })
    }
}

/// An answer, of the kind of its question.
#[derive(Debug, Drop, PartialEq, Eq)]
pub enum Answer {
    Kind(Kind),
    /// `None` where the path is absent.
    Stamp(Option<u64>),
    /// `None` unless the path is a file.
    Content(Option<Body>),
    /// `None` unless the path is a directory.
    Names(Option<NameList>),
    /// `None` unless the path is a link.
    Link(Option<LinkText>),
    /// `None` where the job has none.
    Outcome(Option<Outcome>),
}

/// A question with an answer.
#[derive(Debug, Drop, PartialEq, Eq)]
pub struct Entry {
    pub question: Question,
    pub answer: Answer,
}

impl Answer {
    /// An equal answer. One that holds no memory always comes.
    pub fn copy(&self, alloc: Global) -> Result<Answer, NoMemory>
        ensures ok { IfOk result (λ a. a ≡ self.now) }
        ensures err { OnErr result (IsTrue (holds_memory self.now)) }
    {
        Ok(match self {
            Answer::Kind(kind) => Answer::Kind(*kind),
            Answer::Stamp(stamp) => Answer::Stamp(*stamp),
            Answer::Content(Some(body)) => Answer::Content(Some(body.copy()?)),
            Answer::Content(None) => Answer::Content(None),
            Answer::Names(Some(names)) => Answer::Names(Some(names.copy(alloc)?)),
            Answer::Names(None) => Answer::Names(None),
            Answer::Link(Some(text)) => Answer::Link(Some(text.copy()?)),
            Answer::Link(None) => Answer::Link(None),
            Answer::Outcome(Some(outcome)) => Answer::Outcome(Some(outcome.copy(alloc)?)),
            Answer::Outcome(None) => Answer::Outcome(None),
        })
    }
}

impl Entry {
    /// An equal entry.
    pub fn copy(&self, alloc: Global) -> Result<Entry, NoMemory>
        ensures { IfOk result (λ e. e ≡ self.now) }
    {
        Ok(Entry {
            question: self.question.copy()?,
            answer: self.answer.copy(alloc)?,
        })
    }
}

impl TryClone for Question {
    fn try_clone(&self, _alloc: Global) -> Result<Question, NoMemory> {
        self.copy()
    }
}

impl TryClone for Answer {
    fn try_clone(&self, alloc: Global) -> Result<Answer, NoMemory> {
        self.copy(alloc)
    }
}

impl TryClone for Entry {
    fn try_clone(&self, alloc: Global) -> Result<Entry, NoMemory> {
        self.copy(alloc)
    }
}
