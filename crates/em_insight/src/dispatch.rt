//! List scheduling, one start after another.
ghost use Rattle.std.specs.Prelude.{◌≡◌, ◌≤◌, ◌<◌, ◌+◌, ℕ, [], true, false, None, length, get_or, IfOk, OnOk, IfSome, IfNone, OnErr};
ghost use Rattle.em_insight.specs.Each.{Any};
ghost use Rattle.em_insight.specs.Jobs.{refusal};
ghost use Rattle.em_insight.specs.Schedules.{CanStart};
ghost use Rattle.em_insight.specs.Standings.{Standing, AllStarted, Offers};

use crate::data::Slot;
use crate::queue::Queue;
use em_base::NoMemory;
use em_report::ReportLine;
use std::alloc::Global;

/// A schedule on its way.
#[derive(Drop)]
pub(crate) struct Dispatch<'a> {
    lines: &'a [ReportLine],
    /// In the order in which they start.
    pub slots: Vec<Slot>,
    pub queue: Queue,
    /// For each agent the moment from which on it is free.
    pub free: Vec<u64>,
    /// When the last job started.
    pub now: u64,
}

/// The first moment at which some agent is free.
fn first_free(free: &[u64]) -> u64
    requires { 0 < length free.now }
    ensures some { (a : ℕ) × (a < length free.now) × (get_or free.now a 0 ≡ result) }
    ensures least { (a : ℕ) → a < length free.now → result ≤ get_or free.now a 0 }
{
    let mut first = free[0];
    for moment in free {
        first = first.min(*moment);
    }
    first
}

/// The first agent that is free at a moment; one is.
fn agent_at(free: &[u64], moment: u64) -> usize
    requires some { 0 < length free.now }
    requires free { (a : ℕ) × (a < length free.now) × (get_or free.now a 0 ≤ moment) }
    ensures known { result < length free.now }
    ensures free { get_or free.now result 0 ≤ moment }
    ensures first { (a : ℕ) → get_or free.now a 0 ≤ moment → a < length free.now → result ≤ a }
{
    for (agent, from) in free.iter().enumerate() {
        if *from <= moment {
            return agent;
        }
    }
    0
}

/// So many agents, all free from the beginning.
fn idle(alloc: Global, agents: u32) -> Result<Vec<u64>, NoMemory>
    ensures count { IfOk result (λ f. length f.items ≡ agents) }
    ensures free { IfOk result (λ f. (a : ℕ) → get_or f.items a 0 ≡ 0) }
{
    let mut free = Vec::with_capacity(alloc, agents as usize)?;
    for _agent in 0..agents {
        free.push(0)?;
    }
    Ok(free)
}

impl<'a> Dispatch<'a> {
    /// The schedule without slots, and where each job stands then.
    pub fn new(
        alloc: Global,
        lines: &'a [ReportLine],
        agents: u32,
    ) -> Result<Dispatch<'a>, NoMemory>
        requires order { refusal lines.now ≡ None }
        ensures standing { IfOk result Standing }
        ensures empty { IfOk result (λ d. d.slots.items ≡ []) }
        ensures lines { IfOk result (λ d. d.lines.now ≡ lines.entry.now) }
        ensures agents { IfOk result (λ d. length d.free.items ≡ agents) }
    {
        Ok(Dispatch {
            lines,
            slots: Vec::with_capacity(alloc, lines.len())?,
            queue: Queue::new(alloc, lines)?,
            free: idle(alloc, agents)?,
            now: 0,
        })
    }

    /// The moment at which the next job starts; `None` exactly where all have started. Takes steps
    /// for the agents.
    fn moment(&self) -> Option<u64>
        requires order { refusal self.now.lines.now ≡ None }
        requires some { 0 < length self.now.free.items }
        requires standing { Standing self.now }
        ensures offers { IfSome result (Offers self.entry.now) }
        ensures none { IfNone result (AllStarted self.entry.now) }
    {
        let free = self.now.max(first_free(&self.free));
        if self.queue.ready.first().is_some() {
            return Some(free);
        }
        let due = self.queue.first_due()?;
        Some(free.max(due))
    }

    /// Starts the next job; whether there was one. Takes steps for the agents, and for the job's
    /// waits once and the logarithm of how many jobs there are.
    pub fn step(&mut self, alloc: Global) -> Result<bool, NoMemory>
        requires order { refusal self.old.lines.now ≡ None }
        requires some { 0 < length self.old.free.items }
        requires few { length self.old.free.items ≤ 64 }
        requires standing { Standing self.old }
        ensures standing { OnOk result (Standing self.new) }
        ensures lines { self.new.lines.now ≡ self.old.lines.now }
        ensures agents { OnOk result (length self.new.free.items ≡ length self.old.free.items) }
        ensures more { IfOk result (λ b. b ≡ true
            → length self.new.slots.items ≡ length self.old.slots.items + 1) }
        ensures none { IfOk result (λ b. b ≡ false → AllStarted self.new) }
    {
        let Some(moment) = self.moment() else {
            return Ok(false);
        };
        self.queue.admit(self.lines, moment)?;
        let Some(job) = self.queue.ready.pop_first() else {
            return Ok(false);
        };
        let agent = agent_at(&self.free, moment);
        let end = moment + self.lines[job as usize].fuel;
        self.slots.push(Slot {
            job,
            agent: agent as u32,
            start: moment,
        })?;
        self.free[agent] = end;
        self.queue.start(job, end);
        self.now = moment;
        self.queue.release(alloc, self.lines, job)?;
        Ok(true)
    }
}
