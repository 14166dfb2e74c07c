//! Chains and schedules as data.
use em_base::Seq;

/// A critical path: a heaviest chain of jobs in which each waited for the one before it.
#[derive(Debug, Drop, PartialEq, Eq)]
pub struct Chain {
    /// The chain's jobs, rising.
    pub jobs: Seq<u32>,
    /// What they weigh together: the sum of their units of fuel.
    pub fuel: u64,
    /// For each job of the report at least what the heaviest chain weighs that ends with it, and at
    /// most `fuel`. This certifies that none is heavier.
    pub ends: Seq<u64>,
}

/// Where and when a job runs.
#[derive(Clone, Copy, Debug, PartialEq, Eq)]
pub struct Slot {
    pub job: u32,
    /// The agent that runs it, counted from 0.
    pub agent: u32,
    /// The moment at which it starts, in units of fuel. It ends its own fuel later.
    pub start: u64,
}

/// When each job runs, on which agent.
#[derive(Debug, Drop, PartialEq, Eq)]
pub struct Schedule {
    /// A slot for each job, in the order in which the jobs start.
    pub slots: Seq<Slot>,
    /// The makespan: the moment at which the last job ends, and 0 without jobs.
    pub span: u64,
}
