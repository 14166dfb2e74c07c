//! One variable.
ghost use Rattle.std.specs.Prelude.{◌≡◌, IfOk};

use em_base::{NoMemory, Text};
use std::alloc::Global;

/// Whether a variable's text is expanded at each use, or was when it was set.
#[derive(Clone, Copy, Debug, PartialEq, Eq)]
pub enum Flavour {
    Recursive,
    Simple,
}

/// Where a variable's value comes from.
#[derive(Clone, Copy, Debug, PartialEq, Eq)]
pub enum Origin {
    CommandLine,
    Override,
    File,
    Default,
    /// A recipe's automatic variables, and what a shell assigns: nothing ranks above it, so that it
    /// always takes effect.
    Automatic,
}

/// A variable's value.
#[derive(Debug, Drop, PartialEq, Eq)]
pub struct Var {
    pub flavour: Flavour,
    pub origin: Origin,
    pub text: Text,
    /// Whether the shells of recipes have it.
    pub exported: bool,
}

impl Var {
    /// An equal variable.
    pub fn copy(&self, alloc: Global) -> Result<Var, NoMemory>
        ensures { IfOk result (λ v. v ≡ self.now) }
    {
        Ok(Var {
            flavour: self.flavour,
            origin: self.origin,
            text: self.text.copy(alloc)?,
            exported: self.exported,
        })
    }
}
