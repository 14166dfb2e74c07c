//! What the line of a node says.

ghost use Rattle.std.specs.Prelude.{◌≡◌};
ghost use Rattle.em_image.specs.Reading.{has_bytes};

use em_path::Path;

/// What a node is, and how many bytes it has.
#[derive(Clone, Copy, Debug, PartialEq, Eq)]
pub enum Sort {
    Dir,
    File { size: u64 },
    Link { size: u64 },
}

impl Sort {
    /// Whether bytes stand behind the line.
    pub fn has_bytes(self) -> bool
        ensures { result ≡ has_bytes self }
    {
        match self {
            Sort::Dir => false,
            Sort::File { .. } | Sort::Link { .. } => true,
        }
    }
}

/// The line of a node behind its letter.
#[derive(Drop)]
pub struct Header {
    /// The number of the change that made or touched the node.
    pub stamp: u64,
    /// What stands there.
    pub sort: Sort,
    /// Where the node stands.
    pub path: Path,
    /// The offset of the path's first byte.
    pub place: u32,
}
