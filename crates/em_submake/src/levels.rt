//! The makes within a job that aren't done.

use em_base::Seq;
use em_exec::SubLine;
use em_plan::Plan;
use em_rules::Book;
use em_task::SharedVars;
use em_tree::Outcome;

/// A make that isn't done.
#[derive(Drop)]
pub(crate) struct Level<J> {
    /// The job whose line has begun it.
    pub(crate) job: J,
    pub(crate) line: SubLine,
    pub(crate) book: Book,
    pub(crate) plan: Plan,
    /// The book's variables, which its jobs share.
    pub(crate) vars: SharedVars,
    /// How its jobs have ended so far, in order.
    pub(crate) ended: Seq<Outcome>,
}

/// What goes on.
#[derive(Drop)]
pub(crate) enum Next<J> {
    /// This job, which is the innermost.
    Job(J),
    /// Nothing: the first job has ended so.
    Done(Outcome),
}
