//! An operand, and what comes of it.
ghost use Rattle.std.specs.Prelude.{◌≡◌, ◌++◌, ◌∷◌, false, IfOk};
ghost use Rattle.em_path.specs.Paths.{IsComponent};
ghost use Rattle.em_view.specs.Actions.{renamed};
ghost use Rattle.em_view.specs.Performs.{is_free as free_in};
ghost use Rattle.em_utility.specs.Operands.{is_free, refused};
ghost use Rattle.em_fileutil.specs.Spots as spots;
ghost use Rattle.em_fileutil.specs.Spots.{operand_at, child, begins_component, is_within, there_by};

use em_base::{NoMemory, Text};
use em_path::{Path, PathNo};
use em_utility::{OperandNo, Reason, located, named};
use em_view::{DeskNo, ExecNo, FileNo};
use std::alloc::Global;

/// How many levels a walk goes down at most: a path has at most so many components.
pub(crate) const LEVELS: u32 = 64;

/// What something is done for: the name that was typed, or that comes of it, and its path.
#[derive(Debug, Drop)]
pub(crate) struct Operand {
    pub(crate) name: Text,
    pub(crate) path: Path,
}

impl Operand {
    /// The operand that was typed.
    pub(crate) fn at(alloc: Global, cwd: &Path, name: &[u8]) -> Result<Operand, OperandNo>
        ensures { free_in is_free result ≡ false → result ≡ operand_at cwd.now name.now }
    {
        let path = located(alloc, cwd, name)?;
        Ok(Operand {
            name: Text::from_slice(alloc, name)?,
            path,
        })
    }

    /// An equal operand.
    pub(crate) fn copy(&self, alloc: Global) -> Result<Operand, NoMemory>
        ensures { IfOk result (λ o. o ≡ self.now) }
    {
        Ok(Operand {
            name: self.name.copy(alloc)?,
            path: self.path.copy()?,
        })
    }

    /// A fault of this operand.
    pub(crate) fn fault(&self, alloc: Global, reason: Reason) -> OperandNo
        ensures { is_free result ≡ false → result ≡ spots.fault self.now reason }
    {
        em_utility::fault(alloc, self.name.bytes(), reason)
    }

    /// The fault that an operation of a desk would tell.
    pub(crate) fn told(&self, alloc: Global, no: FileNo) -> OperandNo
        ensures { is_free result ≡ false → result ≡ spots.told self.now no }
    {
        self.fault(alloc, Reason::File(no))
    }

    /// What a desk's call gave; a refusal is a fault of this operand.
    pub(crate) fn tried<T>(&self, alloc: Global, given: Result<T, DeskNo>) -> Result<T, OperandNo>
        ensures { free_in is_free result ≡ false →
            result ≡ renamed (refused self.now.name) given }
    {
        named(alloc, self.name.bytes(), given)
    }

    /// What a desk told of this operand; it is absent where it told nothing.
    pub(crate) fn there<T>(
        &self,
        alloc: Global,
        given: Result<Option<T>, DeskNo>,
    ) -> Result<T, OperandNo>
        ensures { free_in is_free result ≡ false → result ≡ there_by self.now given }
    {
        match self.tried(alloc, given)? {
            Some(value) => Ok(value),
            None => Err(self.told(alloc, FileNo::Absent)),
        }
    }

    /// What has this name in the operand.
    pub(crate) fn child(&self, alloc: Global, name: &[u8]) -> Result<Operand, OperandNo>
        requires { IsComponent name.now }
        ensures { free_in is_free result ≡ false → result ≡ child self.now name.now }
    {
        let typed = name_below(alloc, self.name.bytes(), name)?;
        match self.path.child(alloc, name) {
            Ok(path) => Ok(Operand { name: typed, path }),
            Err(PathNo::NoMemory) => Err(OperandNo::End(ExecNo::NoMemory)),
            Err(_) => Err(OperandNo::Fault(typed, Reason::BadPath)),
        }
    }
}

fn name_below(alloc: Global, dir: &[u8], name: &[u8]) -> Result<Text, NoMemory>
    ensures { IfOk result (λ t. t ≡ dir.now ++ 47 ∷ name.now) }
{
    let mut typed = Text::from_slice(alloc, dir)?;
    typed.add(b"/")?;
    typed.add(name)?;
    Ok(typed)
}

fn begins_component(rest: &[u8]) -> bool
    ensures { result ≡ begins_component rest.now }
{
    match rest.first() {
        None => true,
        Some(byte) => *byte == b'/',
    }
}

/// Whether a path is the same as another, or stands below it.
pub(crate) fn is_within(above: &[u8], path: &[u8]) -> bool
    ensures { result ≡ is_within above.now path.now }
{
    above == b"/".as_slice()
        || (path.starts_with(above) && begins_component(path.get(above.len()..).unwrap_or(&[])))
}
