//! The constructs that are refused by name.
ghost use Rattle.std.specs.Prelude.{◌≡◌, true, IfOk, IsErr};
ghost use Rattle.em_base.specs.Constructs.{holds_text};

use crate::memory::NoMemory;
use crate::text::Text;
use std::alloc::Global;

/// A construct of the shell or of a recipe that is refused.
#[derive(Debug, Drop, PartialEq, Eq)]
pub enum Construct {
    /// `&`
    Background,
    /// A function definition.
    Function,
    /// `<<`
    HereDocument,
    /// `$((`
    Arithmetic,
    /// A positional parameter.
    Positional,
    /// A file descriptor above 2.
    Descriptor,
    /// `<>`, `>|`, `<&` or `>&-`
    Redirection,
    /// More than 64 nested commands and substitutions.
    Depth,
    /// A text for `eval`.
    Eval,
    /// A command `emake` or `make`.
    Submake,
    /// A command that is refused by its name.
    Command(Text),
    /// A utility's option that isn't supported: the utility and the letter.
    Letter(Text, u8),
    /// A directive of `printf`: the byte after its `%`, or none at the end.
    Format(Option<u8>),
    /// A function of make.
    MakeName(Text),
}

impl Construct {
    /// An equal construct. `NoMemory` comes only where the construct holds a text.
    pub fn copy(&self, alloc: Global) -> Result<Construct, NoMemory>
        ensures equal { IfOk result (λ c. c ≡ self.now) }
        ensures only { IsErr result → holds_text self.now ≡ true }
    {
        Ok(match self {
            Construct::Background => Construct::Background,
            Construct::Function => Construct::Function,
            Construct::HereDocument => Construct::HereDocument,
            Construct::Arithmetic => Construct::Arithmetic,
            Construct::Positional => Construct::Positional,
            Construct::Descriptor => Construct::Descriptor,
            Construct::Redirection => Construct::Redirection,
            Construct::Depth => Construct::Depth,
            Construct::Eval => Construct::Eval,
            Construct::Submake => Construct::Submake,
            Construct::Command(name) => Construct::Command(name.copy(alloc)?),
            Construct::Letter(utility, letter) => Construct::Letter(utility.copy(alloc)?, *letter),
            Construct::Format(byte) => Construct::Format(*byte),
            Construct::MakeName(name) => Construct::MakeName(name.copy(alloc)?),
        })
    }
}
