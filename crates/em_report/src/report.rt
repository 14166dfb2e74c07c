//! The report as data.
use em_base::{Seq, Text};

/// Why a job was run twice, or that it was run once.
#[derive(Clone, Copy, Debug, PartialEq, Eq)]
pub enum CauseWord {
    /// It was run once.
    Clean,
    /// Its first run was answered otherwise than the serial run is.
    Differ,
    /// Its first run recorded other answers than it was given.
    Strange,
    /// Its first run was another job's.
    Foreign,
    /// Its first run was given up for want of memory.
    Memory,
}

/// What is said of a job.
#[derive(Debug, Drop, PartialEq, Eq)]
pub struct ReportLine {
    pub job: u32,
    /// 1 or 2.
    pub runs: u8,
    pub cause: CauseWord,
    /// The units that the committed run took.
    pub fuel: u64,
    pub target: Text,
    /// The jobs that it waited for, in order.
    pub waits: Seq<u32>,
}

/// What is said of a build: a line for each job of the serial run, and the exit status.
#[derive(Debug, Drop, PartialEq, Eq)]
pub struct Report {
    pub lines: Seq<ReportLine>,
    pub status: u8,
}
