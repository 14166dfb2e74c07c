//! The front.
ghost use Rattle.std.specs.Prelude.{◌≡◌, ◌↔◌, ◌<◌, ◌^◌, ◌+◌, ◌++◌, ◌∷◌, [], true, false, Some, IsTrue, IsSome, IfOk, IfErr, IfSome, IsSomeAnd, OnOk, OnErr, length, slice_get, option_copied, MatchOption, nat_lt, None, if◌then◌else◌};
ghost use Rattle.em_tree.specs.Answers.{answer, Agrees};
ghost use Rattle.em_view.specs.Serial.{after};
ghost use Rattle.em_run.specs.Runs.{effect_in, Gives};
ghost use Rattle.em_engine.specs.Fronts.{Standing, next_of, named_last, committed, last_change, IsStanding, AreNumbered};
ghost use Rattle.em_engine.specs.Verdicts.{IsVerdict, IsFirstApart, IsFirstWrong};

use crate::changed::named_last;
use crate::note::Verdict;
use em_base::{NoMemory, Seq, Text};
use em_path::Path;
use em_run::{Run, Spec};
use em_tree::{Answer, Delta, Entry, Look, Question, State, Usage};
use std::alloc::Global;
use std::marker::Model;
use std::mem;

/// The jobs in order, of which the first ones are committed. Its type keeps that they have run so
/// in the serial run from the start, that the front stands where they leave it: its state, whether
/// the run has ended, and the fuel and the delta of each, and that the jobs are numbered from 0 on.
#[derive(Drop)]
pub struct Front<S: Spec> {
    alloc: Global,
    start: State,
    state: State,
    specs: Seq<S>,
    ended: bool,
    fuel: Vec<u64>,
    deltas: Vec<Delta>,
}

impl<S: Spec> Model for Front<S> {
    ghost use Rattle.em_engine.specs.Fronts.{Standing, IsStanding, AreNumbered};

    ghost Value = { Standing S };

    ghost use Rattle.em_engine.specs.Codes.{standing_code};

    ghost coded = { standing_code S.code };

    ghost view = { λ f. record {
      start = f.start;
      state = f.state;
      specs = f.specs;
      ended = f.ended;
      fuel = f.fuel.items;
      deltas = f.deltas.items;
    } };

    ghost invariant = { λ f. IsStanding S.makes S.ends_after (record {
      start = f.start;
      state = f.state;
      specs = f.specs;
      ended = f.ended;
      fuel = f.fuel.items;
      deltas = f.deltas.items;
    })
        × AreNumbered S.job_of f.specs };
}

impl<S: Spec> Front<S> {
    /// Before the first job.
    pub fn new(alloc: Global, start: State, specs: Seq<S>) -> Result<Front<S>, NoMemory>
        requires bare { start.outcomes ≡ [] }
        requires small { length specs < 2 ^ 32 }
        requires numbered { AreNumbered S.job_of specs }
        ensures { IfOk result (λ f. f ≡ record {
          start = start;
          state = start;
          specs = specs;
          ended = false;
          fuel = [];
          deltas = [];
        }) }
    {
        let state = start.copy(alloc)?;
        Ok(Front {
            alloc,
            start,
            state,
            specs,
            ended: false,
            fuel: Vec::new(alloc),
            deltas: Vec::new(alloc),
        })
    }

    /// Where the front stands.
    pub fn state(&self) -> &State
        ensures state { result.now ≡ self.now.state }
        ensures serial { IsStanding S.makes S.ends_after self.now }
    {
        &self.state
    }

    /// The spec of the next job; `None` exactly where all are committed or the run has ended. Its
    /// number is how many jobs are committed.
    pub fn next(&self) -> Option<&S>
        ensures next { option_copied result ≡ next_of self.now }
        ensures numbered { IfSome (next_of self.now)
            (λ next. S.job_of next ≡ length self.now.deltas) }
    {
        if self.ended {
            return None;
        }
        self.specs.get(self.deltas.len())
    }

    /// The last committed job that changed what the question asks. A search in what each job
    /// changed, from the last one back to that one.
    pub fn last_change(&self, q: &Question) -> Option<u32>
        ensures { result ≡ last_change self.now q.now }
    {
        match q {
            Question::Kind(p) => self.changed_last(p),
            Question::Stamp(p) => self.changed_last(p),
            Question::Content(p) => self.changed_last(p),
            Question::Names(p) => self.changed_last(p),
            Question::Link(p) => self.changed_last(p),
            Question::Outcome(k) => self.committed_job(*k),
        }
    }

    /// The job, where it is committed.
    fn committed_job(&self, job: u32) -> Option<u32>
        ensures { result ≡ (if nat_lt job (length self.now.deltas) then Some job else None) }
    {
        if (job as usize) < self.deltas.len() {
            Some(job)
        } else {
            None
        }
    }

    /// The last committed job that changed the path.
    fn changed_last(&self, p: &Path) -> Option<u32>
        ensures { result ≡ named_last self.now.deltas p.now }
    {
        named_last(self.deltas.as_slice(), p)
    }

    /// What is to be found of a run that the board answered so. Steps for each look of the usage as
    /// an answer of the state takes; for each entry where the run is not to be committed.
    pub fn check(&self, run: &Run<S>, asked: &Usage) -> Result<Verdict, NoMemory>
        requires { IsSome (next_of self.now) }
        ensures { IfOk result (λ verdict. IfSome (next_of self.now)
            (λ next. IsVerdict S.eq self.now.state next run.now asked.now verdict)) }
    {
        match self.next() {
            Some(next) => self.check_as(next, run, asked),
            None => Ok(Verdict::Foreign),
        }
    }

    fn check_as(&self, next: &S, run: &Run<S>, asked: &Usage) -> Result<Verdict, NoMemory>
        ensures { IfOk result (λ verdict.
            IsVerdict S.eq self.now.state next.now run.now asked.now verdict) }
    {
        if run.spec() != next {
            return Ok(Verdict::Foreign);
        }
        if let Some(place) = apart(self.alloc, run.usage(), asked)? {
            return Ok(Verdict::Strange { place });
        }
        match wrong(self.alloc, &self.state, run.usage())? {
            Some(place) => Ok(Verdict::Differ { place }),
            None => Ok(Verdict::Same),
        }
    }

    /// Commits a run of the next job with whose usage the front's state agrees, and gives its
    /// output. Where memory runs out the run is given back and nothing changes. A search for each
    /// path that the run changes.
    pub fn commit(&mut self, run: Run<S>) -> Result<Text, Run<S>>
        requires next { IsSomeAnd (next_of self.old) (λ next. S.eq run.spec next ≡ true) }
        requires agrees { Agrees self.old.state run.usage }
        ensures output { IfOk result (λ t. t ≡ run.output) }
        ensures ok { OnOk result (self.new ≡ committed S.ends_after self.old run) }
        ensures err { IfErr result (λ r. (r ≡ run) × (self.new ≡ self.old)) }
        ensures gives { OnOk result (Gives S.makes run self.old.state) }
    {
        let Ok(()) = self.fuel.reserve(1) else {
            return Err(run);
        };
        let Ok(()) = self.deltas.reserve(1) else {
            return Err(run);
        };
        let Ok(()) = lay_run(self.alloc, &mut self.state, &run) else {
            return Err(run);
        };
        self.ended = run.spec().ends(run.outcome());
        let parts = run.into_parts();
        self.fuel.push_reserved(parts.fuel);
        self.deltas.push_reserved(parts.delta);
        Ok(parts.output)
    }

    /// Where the front stands, and the fuel of each committed run. It takes no memory.
    pub fn close(self) -> (State, Vec<u64>)
        ensures state { result.0 ≡ self.state }
        ensures fuel { result.1.items ≡ self.fuel }
        ensures serial { IsStanding S.makes S.ends_after self }
    {
        let Front {
            alloc: _,
            start: _,
            state,
            specs: _,
            ended: _,
            fuel,
            deltas: _,
        } = self;
        (state, fuel)
    }
}

/// Lays what a run changes over the state's tree, and appends how it ended.
fn lay_run<S: Spec>(alloc: Global, state: &mut State, run: &Run<S>) -> Result<(), NoMemory>
    requires { Agrees state.old run.now.usage }
    ensures ok { OnOk result (state.new ≡ after (effect_in run.now) state.old) }
    ensures err { OnErr result (state.new ≡ state.old) }
    ensures gives { Gives S.makes run.now state.old }
{
    run.valid();
    let _count = state.tree.count();
    let outcome = run.outcome().copy(alloc)?;
    let mut outcomes = mem::replace(&mut state.outcomes, Seq::new(alloc)).into_vec();
    match outcomes.reserve(1) {
        Ok(()) => {}
        Err(_) => {
            state.outcomes = Seq::from_vec(outcomes);
            return Err(NoMemory);
        }
    }
    match state.tree.lay(run.delta()) {
        Ok(()) => {
            outcomes.push_reserved(outcome);
            state.outcomes = Seq::from_vec(outcomes);
            Ok(())
        }
        Err(e) => {
            state.outcomes = Seq::from_vec(outcomes);
            Err(e)
        }
    }
}

/// The first number at which the usages differ. The looks are compared first: where they are the
/// same nothing more is to be looked at.
fn apart(alloc: Global, one: &Usage, other: &Usage) -> Result<Option<usize>, NoMemory>
    ensures { IfOk result (λ place. MatchOption place (one.now ≡ other.now)
        (λ i. IsFirstApart one.now other.now i)) }
{
    if same_looks(one.looks(), other.looks()) {
        return Ok(None);
    }
    let es = one.entries(alloc)?;
    let fs = other.entries(alloc)?;
    Ok(first_apart(es.as_slice(), fs.as_slice()))
}

fn same_looks(ls: &[Look], ms: &[Look]) -> bool
    ensures { IsTrue result ↔ (ls.now ≡ ms.now) }
{
    if ls.len() != ms.len() {
        return false;
    }
    for i in 0..ls.len() {
        if !same_look(&ls[i], &ms[i]) {
            return false;
        }
    }
    true
}

fn same_look(l: &Look, m: &Look) -> bool
    ensures { IsTrue result ↔ (l.now ≡ m.now) }
{
    l.clear == m.clear && same_entry(&l.entry, &m.entry)
}

/// The first number at which the lists differ.
fn first_apart(es: &[Entry], fs: &[Entry]) -> Option<usize>
    ensures { MatchOption result (es.now ≡ fs.now) (λ i. IsFirstApart es.now fs.now i) }
{
    for i in 0..es.len() {
        if !is_at(&es[i], fs, i) {
            return Some(i);
        }
    }
    if es.len() < fs.len() {
        Some(es.len())
    } else {
        None
    }
}

/// Whether the list has the entry at a place.
fn is_at(e: &Entry, fs: &[Entry], i: usize) -> bool
    ensures { IsTrue result ↔ (Some e.now ≡ slice_get fs.now i) }
{
    match fs.get(i) {
        Some(f) => same_entry(e, f),
        None => false,
    }
}

fn same_entry(e: &Entry, f: &Entry) -> bool
    ensures { IsTrue result ↔ (e.now ≡ f.now) }
{
    same_question(&e.question, &f.question) && same_answer(&e.answer, &f.answer)
}

fn same_question(q: &Question, r: &Question) -> bool
    ensures { IsTrue result ↔ (q.now ≡ r.now) }
{
    q == r
}

fn same_answer(a: &Answer, b: &Answer) -> bool
    ensures { IsTrue result ↔ (a.now ≡ b.now) }
{
    match (a, b) {
        (Answer::Kind(kind), Answer::Kind(other)) => kind == other,
        (Answer::Stamp(stamp), Answer::Stamp(other)) => stamp == other,
        (Answer::Content(body), Answer::Content(other)) => body == other,
        (Answer::Names(names), Answer::Names(other)) => names == other,
        (Answer::Link(text), Answer::Link(other)) => text == other,
        (Answer::Outcome(outcome), Answer::Outcome(other)) => outcome == other,
        _ => false,
    }
}

/// The number of the first entry with which the state disagrees.
fn wrong(alloc: Global, state: &State, usage: &Usage) -> Result<Option<usize>, NoMemory>
    ensures { IfOk result (λ place. MatchOption place (Agrees state.now usage.now)
        (λ i. IsFirstWrong state.now usage.now i)) }
{
    if state.agrees_all(alloc, usage)? {
        return Ok(None);
    }
    let es = usage.entries(alloc)?;
    Ok(first_wrong(state, es.as_slice()))
}

/// The same of entries one by one.
fn first_wrong(state: &State, es: &[Entry]) -> Option<usize>
    ensures { MatchOption result (Agrees state.now es.now) (λ i. IsFirstWrong state.now es.now i) }
{
    for i in 0..es.len() {
        if !state.agrees(&es[i]) {
            return Some(i);
        }
    }
    None
}
