//! What was committed and settled, as texts.
use em_testing::{show_bytes, show_outcome, show_path};
use em_tree::Delta;
use em_workers::{Committed, Settled};
use std::alloc::AllocError;

fn show_paths(log: &mut String, delta: &Delta) -> Result<(), AllocError> {
    for (path, _node) in delta.changes() {
        show_path(log, " ", path)?;
    }
    Ok(())
}

/// What was said, how the job ended, its fuel and the paths that it changed.
pub(super) fn show_committed(log: &mut String, done: &Committed) -> Result<(), AllocError> {
    show_bytes(log, done.output.bytes())?;
    log.push_str(" ")?;
    show_outcome(log, &done.outcome)?;
    let fuel = done.fuel;
    write!(log, " {fuel}")?;
    show_paths(log, &done.delta)
}

/// The job, how it ended and the paths that it changed.
fn show_done(log: &mut String, settled: &Settled) -> Result<(), AllocError> {
    let job = settled.job;
    write!(log, "{job} ")?;
    show_outcome(log, &settled.outcome)?;
    show_paths(log, &settled.delta)
}

/// What was settled.
pub(super) fn show_settled(log: &mut String, all: &[Settled]) -> Result<(), AllocError> {
    for settled in all {
        show_done(log, settled)?;
        log.push_str("; ")?;
    }
    Ok(())
}
