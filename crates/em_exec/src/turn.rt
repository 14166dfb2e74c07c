//! A job whose line may be a make of its own: the line, and how a stretch of the job's work ends.

use em_base::{Seq, Text};
use em_cmdline::Order;
use em_tree::Outcome;
use em_word::Shell;

/// A line that begins a make within a make.
#[derive(Drop)]
pub struct SubLine {
    /// What stands behind the command's name, as the shell has expanded it.
    pub words: Seq<Text>,
    /// The line's shell. Its working directory is that in which the make runs: behind `cd` and
    /// behind `-C`.
    pub shell: Shell,
    /// The settings: those of the make around it, and then the line's own.
    pub order: Order,
    /// How many makes are around the make that the line begins; the outermost has none.
    pub depth: u8,
}

/// How a stretch of a job's work ends.
#[derive(Drop)]
pub enum Turn {
    /// At a line that begins a make. The job goes on once the make has ended.
    Sub(SubLine),
    /// With the job's end.
    Ended(Outcome),
}
