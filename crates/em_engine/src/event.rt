//! What happens on a board.
use em_run::{Run, Spec};
use em_tree::{Delta, Entry, Outcome, Usage};

/// One event of a board's journal. A claim by the committer is a claim as any other.
#[derive(Drop)]
pub enum Event {
    /// The job is claimed.
    Claim(u32),
    /// The job asks, and is answered.
    Ask(u32, Entry),
    /// The job's run is published: what it changes, and how it ended.
    Publish(u32, Delta, Outcome),
    /// The job's run is given up.
    GiveUp(u32),
    /// The job is settled: what it changes, and how it ended.
    Settle(u32, Delta, Outcome),
    /// No more jobs are claimed.
    Stop,
}

/// How far a job is.
#[derive(Drop)]
pub enum Phase<S: Spec> {
    /// Nobody has claimed it.
    Free,
    /// A worker runs it.
    Claimed,
    /// The committer runs it.
    Fronted,
    /// A worker has published its run.
    Posted(Run<S>),
    /// A worker has given it up.
    GivenUp,
    /// What a worker left is with the committer.
    Taken,
    /// It is settled.
    Settled,
}

/// What a worker has left of a job.
#[derive(Drop)]
pub enum Taken<S: Spec> {
    /// Its run, and what the board answered it.
    Run(Run<S>, Usage),
    /// Nothing: it was given up.
    GivenUp,
    /// Nothing yet: it is being run.
    NotYet,
}
