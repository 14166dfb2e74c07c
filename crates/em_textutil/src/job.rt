//! What a utility does with what it has read.

use em_base::Text;
use em_lineutil::{Asked, Order, Search};

/// What is written of each file for itself.
#[derive(Clone, Copy, Debug, PartialEq, Eq)]
pub enum Filter {
    /// All of it.
    Cat,
    /// The first lines.
    Head(u64),
    /// The last lines.
    Tail(u64),
    /// Its counts.
    Count(Asked),
    /// Adjacent equal lines once, counted or not.
    Uniq(bool),
}

/// How `grep` searches, and what it writes.
#[derive(Debug, Drop, PartialEq, Eq)]
pub struct Grep {
    pub search: Search,
    /// How many lines are selected, in place of the lines.
    pub counted: bool,
    /// Nothing is written.
    pub quiet: bool,
    /// There are several files, whose names are written.
    pub several: bool,
    pub pattern: Text,
}

/// What a utility does with what it has read.
#[derive(Debug, Drop, PartialEq, Eq)]
pub enum TextOperation {
    /// Each file for itself.
    Each(Filter),
    /// All lines in order.
    Sort(Order),
    /// Two files are compared; with nothing written where this is set.
    Pair(bool),
    /// Lines are searched.
    Grep(Grep),
}
