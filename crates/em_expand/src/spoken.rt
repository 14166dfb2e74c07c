//! What expansions say, and the texts that they keep for `eval`.
ghost use Rattle.std.specs.Prelude.{◌≡◌, []};

use em_base::{Seq, Text};
use std::alloc::Global;

/// What expansions have said, and the texts that they have kept for `eval`. Both only grow.
#[derive(Debug, Drop, PartialEq, Eq)]
pub struct Spoken {
    /// What `info` and `warning` have said.
    pub said: Text,
    /// The texts for `eval`, in order.
    pub evals: Seq<Text>,
}

impl Spoken {
    /// Nothing yet. Takes no memory.
    pub fn new(alloc: Global) -> Spoken
        ensures { result ≡ record { said = []; evals = [] } }
    {
        Spoken {
            said: Text::new(alloc),
            evals: Seq::new(alloc),
        }
    }
}
