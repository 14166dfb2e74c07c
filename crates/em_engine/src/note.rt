//! What the committer finds of runs.
use em_tree::{Answer, Entry, Question};

/// What a front finds of a run.
#[derive(Clone, Copy, Debug, PartialEq, Eq)]
pub enum Verdict {
    /// It is what the next job makes of the front's state.
    Same,
    /// The front's state disagrees with this entry of its usage, and with none before.
    Differ { place: usize },
    /// Its usage and what was asked differ at this place, and at none before.
    Strange { place: usize },
    /// It is no run of the next job.
    Foreign,
}

/// How a job came to be committed: in how many runs, and why in two.
#[derive(Debug, Drop, PartialEq, Eq)]
pub struct Note {
    pub job: u32,
    pub runs: u8,
    pub cause: Option<Cause>,
}

/// Why a job was run again.
#[derive(Debug, Drop, PartialEq, Eq)]
pub enum Cause {
    /// Its first run was answered otherwise at this place; `after` is the last job before it that
    /// changed what was asked.
    Differ {
        place: usize,
        question: Question,
        recorded: Answer,
        now: Answer,
        after: Option<u32>,
    },
    /// What its first run recorded and what it was answered differ at this place.
    Strange {
        place: usize,
        board: Option<Entry>,
        run: Option<Entry>,
    },
    /// Its first run was that of another job.
    Foreign,
    /// Its worker gave it up.
    WantOfMemory,
}
