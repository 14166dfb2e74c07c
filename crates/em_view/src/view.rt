//! Who answers.
ghost use Rattle.std.specs.Prelude.{◌≡◌, ◌+◌, ◌≢◌, ℕ, [], Some, Option, option_map, IfOk, OnErr, OnOk};
ghost use Rattle.em_tree.specs.declared.question.Question.{Question};
ghost use Rattle.em_tree.specs.declared.question.Answer.{Answer};
ghost use Rattle.em_tree.specs.Answers.{answer};
ghost use Rattle.em_view.specs.Views.{IsAnswerTo, IsTold, nth_or_last};

use em_base::NoMemory;
use em_tree::{Answer, Question, State};
use std::alloc::Global;
use std::marker::Model;

/// What a job's questions are put to. Nothing else is promised of it: the answers to two asks need
/// not fit together.
pub trait View: Drop {
    /// The answer to the i-th ask from now, from 0, where it is this question; none where the view
    /// doesn't tell it.
    ghost tells: { Self → ℕ → Question → Option Answer };

    /// Answers a question, by an answer of its kind. Where memory runs out, what the view tells
    /// stays as it was.
    fn ask(&mut self, alloc: Global, q: &Question) -> Result<Answer, NoMemory>
        ensures kind { IfOk result (λ a. IsAnswerTo q.now a) }
        ensures told { IfOk result (λ a. IsTold (tells self.old 0 q.now) a) }
        ensures ahead { OnOk result
            ((i : ℕ) (r : Question) → tells self.new i r ≡ tells self.old (i + 1) r) }
        ensures lost { OnErr result
            ((i : ℕ) (r : Question) → tells self.new i r ≡ tells self.old i r) };
}

/// The answers of one state, which is what contracts see of it.
#[derive(Drop)]
pub struct PlainView<'a> {
    state: &'a State,
}

impl<'a> Model for PlainView<'a> {
    ghost use Rattle.em_tree.specs.contracts.state.State as snapshot;
    ghost use Rattle.em_tree.specs.declared.state.State.{State};

    ghost Value = { State };

    ghost coded = { snapshot.the_row.coded };

    ghost view = { λ v. v.state.now };
}

impl<'a> PlainView<'a> {
    /// A view of the state.
    pub fn new(state: &'a State) -> PlainView<'a>
        ensures { result ≡ state.entry.now }
    {
        PlainView { state }
    }
}

impl<'a> View for PlainView<'a> {
    ghost tells = { λ v i q. Some (answer v q) };

    fn ask(&mut self, alloc: Global, q: &Question) -> Result<Answer, NoMemory> {
        self.state.answer(alloc, q)
    }
}

/// The answers of several states: of the i-th to the i-th ask, and of the last to all later ones.
/// Contracts see the list of the states that are still to come, the last one among them.
#[derive(Drop)]
pub struct ScriptView {
    states: Vec<State>,
    next: usize,
}

impl Model for ScriptView {
    ghost use Rattle.std.specs.Prelude.{List, drop, length, ◌<◌};
    ghost use Rattle.std.specs.Coded.{coded_list};
    ghost use Rattle.em_tree.specs.contracts.state.State as state;
    ghost use Rattle.em_tree.specs.declared.state.State.{State};

    ghost Value = { List State };

    ghost coded = { coded_list state.the_row.coded };

    ghost view = { λ v. drop v.next v.states.items };

    ghost invariant = { λ v. v.next < length v.states.items };
}

impl ScriptView {
    /// A view of these states, of which there is at least one.
    pub fn new(states: Vec<State>) -> ScriptView
        requires { states.items ≢ [] }
        ensures { result ≡ states.items }
    {
        ScriptView { states, next: 0 }
    }
}

impl View for ScriptView {
    ghost tells = { λ v i q. option_map (λ s. answer s q) (nth_or_last v i) };

    fn ask(&mut self, alloc: Global, q: &Question) -> Result<Answer, NoMemory> {
        let answer = self.states[self.next].answer(alloc, q)?;
        if self.next + 1 < self.states.len() {
            self.next += 1;
        }
        Ok(answer)
    }
}
