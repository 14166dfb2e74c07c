//! What jobs ask of.
ghost use Rattle.std.specs.Prelude.{◌≡◌, ◌↔◌, IfOk, OnErr, IsTrue};
ghost use Rattle.em_tree.specs.Answers.{answer, holds_memory};

use crate::outcome::Outcomes;
use crate::question::{Answer, Entry, Question};
use crate::tree::Tree;
use em_base::NoMemory;
use std::alloc::Global;

/// A tree, and the outcomes of the jobs so far.
#[derive(Drop, PartialEq, Eq)]
pub struct State {
    pub tree: Tree,
    pub outcomes: Outcomes,
}

impl State {
    /// The answer to a question. One that holds no memory always comes.
    pub fn answer(&self, alloc: Global, q: &Question) -> Result<Answer, NoMemory>
        ensures ok { IfOk result (λ a. a ≡ answer self.now q.now) }
        ensures err { OnErr result (IsTrue (holds_memory (answer self.now q.now))) }
    {
        Ok(match q {
            Question::Kind(p) => Answer::Kind(self.tree.kind(p)),
            Question::Stamp(p) => Answer::Stamp(self.tree.stamp(p)),
            Question::Content(p) => Answer::Content(match self.tree.content(p) {
                Some(body) => Some(body.copy()?),
                None => None,
            }),
            Question::Names(p) => Answer::Names(self.tree.names(alloc, p)?),
            Question::Link(p) => Answer::Link(match self.tree.link(p) {
                Some(text) => Some(text.copy()?),
                None => None,
            }),
            Question::Outcome(k) => Answer::Outcome(match self.outcomes.get(*k as usize) {
                Some(outcome) => Some(outcome.copy(alloc)?),
                None => None,
            }),
        })
    }

    /// Whether the answer to the entry's question is the entry's.
    pub fn agrees(&self, e: &Entry) -> bool
        ensures { IsTrue result ↔ (answer self.now e.now.question ≡ e.now.answer) }
    {
        match (&e.question, &e.answer) {
            (Question::Kind(p), Answer::Kind(kind)) => self.tree.kind(p) == *kind,
            (Question::Stamp(p), Answer::Stamp(stamp)) => self.tree.stamp(p) == *stamp,
            (Question::Content(p), Answer::Content(body)) => self.tree.content(p) == body.as_ref(),
            (Question::Names(p), Answer::Names(names)) => self.tree.has_names(p, names),
            (Question::Link(p), Answer::Link(text)) => self.tree.link(p) == text.as_ref(),
            (Question::Outcome(k), Answer::Outcome(outcome)) => {
                self.outcomes.get(*k as usize) == outcome.as_ref()
            }
            _ => false,
        }
    }

    /// An equal state.
    pub fn copy(&self, alloc: Global) -> Result<State, NoMemory>
        ensures { IfOk result (λ s. s ≡ self.now) }
    {
        Ok(State {
            tree: self.tree.copy()?,
            outcomes: self.outcomes.copy(alloc)?,
        })
    }
}
