//! The board.
ghost use Rattle.std.specs.Prelude.{◌≡◌, ◌↔◌, ◌<◌, ◌^◌, ℕ, [], Some, All, IsTrue, IfOk, IfErr, OnOk, OnErr, MatchBool, length, map, replicate, slice_get, slice_index_or, true};
ghost use Rattle.em_engine.specs.declared.event.Event.TheVariants as event;
ghost use Rattle.em_engine.specs.declared.event.Phase.TheVariants as phase;
ghost use Rattle.em_engine.specs.declared.ready.JobStage.TheVariants as stage;
ghost use Rattle.em_engine.specs.Stages.{CanClaim};
ghost use Rattle.em_engine.specs.Journal.{IsLegal, first, weight_of, asked_of};
ghost use Rattle.em_engine.specs.Boards.{Seen, AreTied, stage_of, told, stages, is_kept};
ghost use Rattle.em_engine.specs.Calls.{entry, noted, moved, put, answer_now, can_take, can_settle, left_by, Claims, Takes};

use crate::event::{Event, Phase, Taken};
use crate::ready::{Claim, WaitingJobs};
use em_base::{NoMemory, Seq};
use em_chain::{Post, Versions};
use em_run::{Run, Spec};
use em_tree::{Answer, Delta, Entry, Outcome, Question, State, Usage};
use std::alloc::Global;
use std::marker::Model;
use std::mem;

/// Jobs, what was posted of them, and the journal of all that happened. Its type keeps that the
/// journal is legal, that what is posted and the phases are its replay, but for what was taken,
/// that each run that was posted is one of its job and what it makes is posted, and that there is
/// room for the events of all later calls but asks. So claims, `give_up`, `take` and `stop` take no
/// memory. What the settled jobs have posted is merged: no claimed job is one of them.
#[derive(Drop)]
pub struct Board<S: Spec> {
    alloc: Global,
    versions: Versions,
    ready: WaitingJobs,
    phases: Vec<Phase<S>>,
    asked: Vec<Usage>,
    settled: u32,
    stopped: bool,
    owed: usize,
    journal: Vec<Event>,
}

impl<S: Spec> Model for Board<S> {
    ghost use Rattle.std.specs.Prelude.{length, vec_len, vec_capacity};
    ghost use Rattle.std.specs.Coded.{codes};
    ghost use Rattle.em_tree.specs.contracts.state.State as state;
    ghost use Rattle.em_run.specs.Codes.{parts_code};
    ghost use Rattle.em_engine.specs.contracts.event.Event as event;
    ghost use Rattle.em_engine.specs.Boards.{Seen, IsBoard, AreTied};
    ghost use Rattle.em_engine.specs.Journal.{first, replay};

    ghost Value = { Seen S };

    ghost coded = { Prim.hlevel
        (codes, state.the_row.coded, event.the_row.coded, parts_code S.code) };

    ghost view = { λ b. record {
      start = b.versions.start;
      waits = b.ready.waits;
      journal = b.journal.items;
      phases = b.phases.items;
    } };

    ghost invariant = { λ b. IsBoard (record {
      start = b.versions.start;
      versions = b.versions;
      waits = b.ready.waits;
      stages = b.ready.stages;
      phases = b.phases.items;
      asked = b.asked.items;
      settled = b.settled;
      stopped = b.stopped;
      owed = b.owed;
      journal = b.journal.items;
      len = vec_len b.journal;
      cap = vec_capacity b.journal;
    })
        × AreTied S.job_of b.phases.items
        (replay (first (length b.ready.waits)) b.journal.items).posts };
}

impl<S: Spec> Board<S> {
    /// A board of free jobs, one for each list of the jobs that it waits for. It takes the room of
    /// three events for each job and of one stop. Steps for each job and each of its waits.
    pub fn new(alloc: Global, start: State, waits: Seq<Seq<u32>>) -> Result<Board<S>, NoMemory>
        requires small { length waits < 2 ^ 32 }
        requires lower { (j : ℕ) → All (λ k. k < j) (slice_index_or waits j []) }
        ensures { IfOk result (λ b. b ≡ record {
          start = start;
          waits = waits;
          journal = [];
          phases = replicate (length waits) phase.Free;
        }) }
    {
        let count = waits.len();
        let journal = Vec::with_capacity(alloc, 3 * count + 1)?;
        let phases = free_phases(alloc, count)?;
        let asked = no_entries(alloc, count)?;
        let versions = Versions::new(alloc, start)?;
        let ready = WaitingJobs::new(alloc, waits)?;
        Ok(Board {
            alloc,
            versions,
            ready,
            phases,
            asked,
            settled: 0,
            stopped: false,
            owed: 3 * count + 1,
            journal,
        })
    }

    /// How many jobs there are.
    pub fn len(&self) -> usize
        ensures { result ≡ length self.now.phases }
    {
        self.phases.len()
    }

    /// How many jobs are settled, which is the number of the next one.
    pub fn settled(&self) -> u32
        ensures { result ≡ (told self.now).settled }
    {
        self.settled
    }

    /// Whether no more jobs are claimed.
    pub fn is_stopped(&self) -> bool
        ensures { result ≡ (told self.now).stopped }
    {
        self.stopped
    }

    /// All that happened, in order.
    pub fn journal(&self) -> &[Event]
        ensures events { result.now ≡ self.now.journal }
        ensures legal { IsLegal self.now.start self.now.waits
            (first (length self.now.waits)) self.now.journal }
        ensures told { (told self.now).stages ≡ stages self.now }
        ensures tied { AreTied S.job_of self.now.phases (told self.now).posts }
    {
        self.journal.as_slice()
    }

    /// Whether a worker has the job.
    pub fn is_claimed(&self, job: u32) -> bool
        ensures { IsTrue result ↔ (slice_get self.now.phases job ≡ Some phase.Claimed) }
    {
        match self.phases.get(job as usize) {
            Some(Phase::Claimed) => true,
            _ => false,
        }
    }

    /// Whether what a worker leaves of the job may be taken.
    pub fn can_take(&self, job: u32) -> bool
        ensures { result ≡ can_take (slice_get self.now.phases job) }
    {
        match self.phases.get(job as usize) {
            Some(Phase::Claimed | Phase::Posted(_) | Phase::GivenUp) => true,
            _ => false,
        }
    }

    /// Whether the committer has the job.
    pub fn can_settle(&self, job: u32) -> bool
        ensures { result ≡ can_settle (slice_get self.now.phases job) }
    {
        match self.phases.get(job as usize) {
            Some(Phase::Fronted | Phase::Taken) => true,
            _ => false,
        }
    }

    /// Claims the least free job all of whose waits have ended, unless the board is stopped. Steps
    /// for the logarithm of how many jobs there are.
    pub fn claim(&mut self) -> Claim
        ensures { Claims self.old self.new result }
    {
        if self.stopped {
            return Claim::Done;
        }
        let found = self.ready.least();
        if let Claim::Job(job) = found {
            self.begin(job, Phase::Claimed);
        }
        found
    }

    /// Claims the next job to be settled for the committer, if it is free. Steps for the logarithm
    /// of how many jobs there are.
    pub fn claim_front(&mut self, job: u32) -> bool
        requires job { job < length self.old.phases }
        requires next { job ≡ (told self.old).settled }
        ensures free { IsTrue result ↔ (slice_get self.old.phases job ≡ Some phase.Free) }
        ensures claimed { MatchBool result
            (self.new ≡ moved self.old (event.Claim job) job phase.Fronted) (self.new ≡ self.old) }
    {
        match &self.phases[job as usize] {
            Phase::Free => {}
            _ => return false,
        }
        self.begin(job, Phase::Fronted);
        true
    }

    /// Answers a question of a job that a worker has, by the start with what the jobs below it have
    /// posted; the journal and what the job asked have it then. Where memory runs out nothing
    /// changes. Steps as a look at the versions takes.
    pub fn ask(&mut self, job: u32, q: &Question) -> Result<Answer, NoMemory>
        requires { slice_get self.old.phases job ≡ Some phase.Claimed }
        ensures answer { IfOk result (λ a. a ≡ answer_now self.old job q.now) }
        ensures ok { IfOk result (λ a. self.new ≡ noted self.old (event.Ask job (entry q.now a))) }
        ensures err { OnErr result (self.new ≡ self.old) }
    {
        let answer = self.versions.look(job, q)?;
        let kept = entry_of(self.alloc, q, &answer)?;
        let noted = entry_of(self.alloc, q, &answer)?;
        self.journal.reserve(self.owed + 1)?;
        self.asked[job as usize].push(kept)?;
        self.journal.push_reserved(Event::Ask(job, noted));
        Ok(answer)
    }

    /// Publishes a run of a job that a worker has. Where memory runs out the run is given back and
    /// nothing changes. Steps for each change of the run, and for each job that waits for this one.
    pub fn publish(&mut self, run: Run<S>) -> Result<(), Run<S>>
        requires { slice_get self.old.phases (S.job_of run.spec) ≡ Some phase.Claimed }
        ensures ok { OnOk result (self.new ≡ moved self.old
            (event.Publish (S.job_of run.spec) run.delta run.outcome) (S.job_of run.spec)
            (phase.Posted run)) }
        ensures err { IfErr result (λ r. (r ≡ run) × (self.new ≡ self.old)) }
    {
        let job = job_of(&run);
        let Ok(noted) = post_of_run(self.alloc, &run) else {
            return Err(run);
        };
        let Ok(posted) = post_of_run(self.alloc, &run) else {
            return Err(run);
        };
        let Ok(()) = self.versions.post(job, posted.delta, posted.outcome) else {
            return Err(run);
        };
        self.journal
            .push_reserved(Event::Publish(job, noted.delta, noted.outcome));
        self.ready.end(job);
        self.phases[job as usize] = Phase::Posted(run);
        self.owed -= 1;
        Ok(())
    }

    /// Gives up the run of a job that a worker has. Steps for each job that waits for this one.
    pub fn give_up(&mut self, job: u32)
        requires { slice_get self.old.phases job ≡ Some phase.Claimed }
        ensures { self.new ≡ moved self.old (event.GiveUp job) job phase.GivenUp }
    {
        self.journal.push_reserved(Event::GiveUp(job));
        self.ready.end(job);
        self.phases[job as usize] = Phase::GivenUp;
        self.owed -= 1;
    }

    /// Takes what a worker has left of the next job to be settled: its run with what it asked, or
    /// nothing where it was given up.
    pub fn take(&mut self, job: u32) -> Taken<S>
        requires next { job ≡ (told self.old).settled }
        requires left { can_take (slice_get self.old.phases job) ≡ true }
        ensures { Takes self.old self.new job result }
    {
        match &self.phases[job as usize] {
            Phase::Claimed => return Taken::NotYet,
            _ => {}
        }
        let asked = mem::replace(&mut self.asked[job as usize], Usage::new(self.alloc));
        let phase = mem::replace(&mut self.phases[job as usize], Phase::Taken);
        left_by(phase, asked)
    }

    /// Settles the next job, which the committer has: what it changes and how it ended stand in
    /// place of what was posted, and are merged with what the jobs before it have. Where memory
    /// runs out nothing changes. Steps for each change, and for each job that waits for this one.
    pub fn settle(&mut self, job: u32, d: Delta, o: Outcome) -> Result<(), NoMemory>
        requires next { job ≡ (told self.old).settled }
        requires fronted { can_settle (slice_get self.old.phases job) ≡ true }
        ensures ok { OnOk result
            (self.new ≡ moved self.old (event.Settle job d o) job phase.Settled) }
        ensures err { OnErr result (self.new ≡ self.old) }
    {
        let posted = post_of(self.alloc, &d, &o)?;
        let left = left_of(&self.phases[job as usize]);
        self.versions.post(job, posted.delta, posted.outcome)?;
        self.versions.raise(job + 1);
        self.journal.push_reserved(Event::Settle(job, d, o));
        self.ready.settle(job);
        self.phases[job as usize] = Phase::Settled;
        self.owed -= left;
        self.settled += 1;
        Ok(())
    }

    /// Stops the board: no more jobs are claimed. A board that is stopped stays as it is.
    pub fn stop(&mut self)
        ensures { MatchBool (told self.old).stopped (self.new ≡ self.old)
            (self.new ≡ noted self.old event.Stop) }
    {
        if self.stopped {
            return;
        }
        self.journal.push_reserved(Event::Stop);
        self.stopped = true;
        self.owed -= 1;
    }
}

impl<S: Spec> Board<S> {
    fn begin(&mut self, job: u32, phase: Phase<S>)
        requires can { CanClaim self.old.waits (stages self.old) job }
        requires claimed { stage_of phase ≡ stage.Claimed }
        ensures { self.new ≡ moved self.old (event.Claim job) job phase }
    {
        self.journal.push_reserved(Event::Claim(job));
        self.ready.claim(job);
        self.phases[job as usize] = phase;
        self.owed -= 1;
    }
}

/// What a job in this phase leaves, with what it asked.
fn left_by<S: Spec>(phase: Phase<S>, asked: Usage) -> Taken<S>
    ensures { result ≡ left_by phase asked }
{
    match phase {
        Phase::Posted(run) => Taken::Run(run, asked),
        _ => Taken::GivenUp,
    }
}

/// How many events may still come for a job.
fn left_of<S: Spec>(phase: &Phase<S>) -> usize
    ensures { result ≡ weight_of (stage_of phase.now) }
{
    match phase {
        Phase::Free => 3,
        Phase::Claimed | Phase::Fronted => 2,
        Phase::Posted(_) | Phase::GivenUp | Phase::Taken => 1,
        Phase::Settled => 0,
    }
}

fn entry_of(alloc: Global, q: &Question, a: &Answer) -> Result<Entry, NoMemory>
    ensures { IfOk result (λ e. e ≡ entry q.now a.now) }
{
    Ok(Entry {
        question: q.copy()?,
        answer: a.copy(alloc)?,
    })
}

fn post_of(alloc: Global, d: &Delta, o: &Outcome) -> Result<Post, NoMemory>
    ensures { IfOk result (λ p. p ≡ record { delta = d.now; outcome = o.now }) }
{
    Ok(Post {
        delta: d.copy()?,
        outcome: o.copy(alloc)?,
    })
}

/// The number of the run's job.
fn job_of<S: Spec>(run: &Run<S>) -> u32
    ensures { result ≡ S.job_of run.now.spec }
{
    run.spec().job()
}

/// What the run posts.
fn post_of_run<S: Spec>(alloc: Global, run: &Run<S>) -> Result<Post, NoMemory>
    ensures { IfOk result (λ p. p ≡ record { delta = run.now.delta; outcome = run.now.outcome }) }
{
    post_of(alloc, run.delta(), run.outcome())
}

fn free_phases<S: Spec>(alloc: Global, count: usize) -> Result<Vec<Phase<S>>, NoMemory>
    ensures { IfOk result (λ v. v.items ≡ replicate count phase.Free) }
{
    let mut phases = Vec::new(alloc);
    for _ in 0..count {
        phases.push(Phase::Free)?;
    }
    Ok(phases)
}

fn no_entries(alloc: Global, count: usize) -> Result<Vec<Usage>, NoMemory>
    ensures { IfOk result (λ v. v.items ≡ replicate count []) }
{
    let mut asked = Vec::new(alloc);
    for _ in 0..count {
        asked.push(Usage::new(alloc))?;
    }
    Ok(asked)
}
