//! The calls on a host.
ghost use Rattle.std.specs.Prelude.{◌≡◌, IfOk};

use em_base::{NoMemory, Text};
use std::alloc::Global;

/// What was asked of a host.
#[derive(Debug, Drop, PartialEq, Eq)]
pub enum Call {
    /// The bytes of the file of this name.
    Take(Text),
    /// That the file of this name becomes these bytes.
    Replace { name: Text, bytes: Text },
    /// That these bytes are printed.
    Print(Text),
}

/// A call that was made, and whether it answered Ok.
#[derive(Debug, Drop, PartialEq, Eq)]
pub struct Called {
    pub call: Call,
    pub ok: bool,
}

impl Call {
    pub(crate) fn take(alloc: Global, name: &[u8]) -> Result<Call, NoMemory>
        ensures { IfOk result (λ call. call ≡ Call.Take name.now) }
    {
        Ok(Call::Take(Text::from_slice(alloc, name)?))
    }

    pub(crate) fn replace(alloc: Global, name: &[u8], bytes: &[u8]) -> Result<Call, NoMemory>
        ensures { IfOk result (λ call. call ≡ Call.Replace name.now bytes.now) }
    {
        Ok(Call::Replace {
            name: Text::from_slice(alloc, name)?,
            bytes: Text::from_slice(alloc, bytes)?,
        })
    }

    pub(crate) fn print(alloc: Global, bytes: &[u8]) -> Result<Call, NoMemory>
        ensures { IfOk result (λ call. call ≡ Call.Print bytes.now) }
    {
        Ok(Call::Print(Text::from_slice(alloc, bytes)?))
    }
}
