//! What the words order, and why they order nothing.
ghost use Rattle.std.specs.Prelude.{◌≡◌};
ghost use Rattle.em_cmdline.specs.declared.order.WordNo.TheVariants.{NoMemory};

use em_base::{NoMemory, Seq, Text};
use std::alloc::{AllocError, AllocFailed};
use thiserror::Error;

/// What becomes of the history.
#[derive(Clone, Copy, Debug, PartialEq, Eq)]
pub enum HistoryMode {
    /// Begins without pairs and writes what was learnt.
    Create,
    /// Uses the old pairs and writes them with what was learnt.
    Merge,
    /// Uses the old pairs and writes nothing.
    Read,
}

/// What the words of a command line order.
#[derive(Debug, Drop)]
pub struct Order {
    /// The host's file that holds the image: `-I`.
    pub image: Option<Text>,
    /// The makefile's name in the tree: `-f`.
    pub makefile: Option<Text>,
    /// The directory in the tree: `-C`, else `/`.
    pub dir: Text,
    /// `-k`
    pub keep_going: bool,
    /// `-n`
    pub dry: bool,
    /// `-q`
    pub question: bool,
    /// `-s`
    pub silent: bool,
    /// `-i`
    pub ignore: bool,
    /// `-B`
    pub always: bool,
    /// From 1 to 64: `-j`, else 1.
    pub workers: u32,
    /// From 1 to 1,000,000 units for each job: `--fuel`, else 1,000,000.
    pub fuel: u64,
    /// The host's file that holds the history: `--history`.
    pub history: Option<Text>,
    /// `--mode`, else `merge`.
    pub mode: HistoryMode,
    /// The host's file for the report: `--report`.
    pub report: Option<Text>,
    /// From 1 to 10,000, the size of a project to generate: `--gen`.
    pub generate: Option<u32>,
    /// The host's file that holds a report to explain: `--explain`.
    pub explain: Option<Text>,
    /// From 1 to 64, for how many agents it is scheduled: `--agents`, else 1.
    pub agents: u32,
    /// The words that are no assignments, in order.
    pub goals: Seq<Text>,
    /// The words with `=`, in order: the name before the first `=`, and the value after it.
    pub assigned: Seq<(Text, Text)>,
}

/// Why the words order nothing. The first that applies counts.
#[derive(Debug, Drop, PartialEq, Eq, Error)]
pub enum WordNo {
    /// A word isn't UTF-8, is no option, lacks its value or stands twice, or `--mode` has another
    /// value.
    #[error("unknown word")]
    Unknown,
    /// There isn't exactly one of `-I`, `--gen` and `--explain`.
    #[error("missing -I")]
    Missing,
    /// A number isn't canonical decimal in its range: the first such value of `-j`, `--fuel`,
    /// `--gen`, `--agents`.
    #[error("bad number")]
    BadNumber(Text),
    /// The first assignment whose name is empty or holds a space, a tab, `:`, `#` or `$`: the whole
    /// word.
    #[error("bad name")]
    BadName(Text),
    /// The host's file that two of `-I`, `--history` and `--report` name.
    #[error("same file")]
    SameName(Text),
    #[error("out of memory")]
    NoMemory,
}

impl From<AllocError> for WordNo {
    ghost from_gives = { λ _ e. e ≡ NoMemory };

    fn from(_e: AllocError) -> WordNo {
        WordNo::NoMemory
    }
}

impl<T: Drop> From<AllocFailed<T>> for WordNo {
    ghost from_gives = { λ _ e. e ≡ NoMemory };

    fn from(_e: AllocFailed<T>) -> WordNo {
        WordNo::NoMemory
    }
}

impl From<em_base::NoMemory> for WordNo {
    ghost from_gives = { λ _ e. e ≡ NoMemory };

    fn from(_e: em_base::NoMemory) -> WordNo {
        WordNo::NoMemory
    }
}
