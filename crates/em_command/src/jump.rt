//! Why the commands that follow aren't run.
ghost use Rattle.std.specs.Prelude.{◌≡◌};
ghost use Rattle.em_command.specs.declared.jump.Jump.TheVariants.{End};
ghost use Rattle.em_command.specs.Jumps.{jump_of, of_desk};
ghost use Rattle.em_view.specs.declared.done.ExecNo.TheVariants.{NoMemory, Spent};

use em_view::{DeskNo, ExecNo};
use std::alloc::{AllocError, AllocFailed};
use thiserror::Error;

/// Why the commands that follow aren't run.
#[derive(Debug, Drop, PartialEq, Eq, Error)]
pub enum Jump {
    /// `exit`, or `${name?word}` of a name that is unset: the shell ends. Its status is that with
    /// which it ends.
    #[error("the shell ends")]
    Exit,
    /// `break`: the innermost loop ends.
    #[error("the loop ends")]
    Break,
    /// `continue`: the turn of the innermost loop ends.
    #[error("the turn of the loop ends")]
    Continue,
    /// There is no end: a construct is refused, the fuel doesn't suffice, or memory is short.
    #[error("{0}")]
    End(ExecNo),
}

/// How a command goes on with what follows it.
#[derive(Clone, Copy, Debug, PartialEq, Eq)]
pub enum Flow {
    /// The next command is run.
    On,
    Exit,
    Break,
    Continue,
}

impl Flow {
    /// The next command is run, or why it isn't.
    pub fn jump(self) -> Result<(), Jump>
        ensures { result ≡ jump_of self }
    {
        match self {
            Flow::On => Ok(()),
            Flow::Exit => Err(Jump::Exit),
            Flow::Break => Err(Jump::Break),
            Flow::Continue => Err(Jump::Continue),
        }
    }
}

impl From<ExecNo> for Jump {
    ghost from_gives = { λ e r. r ≡ End e };

    fn from(e: ExecNo) -> Jump {
        Jump::End(e)
    }
}

/// What a desk's refusal is to a shell: only for the calls that never refuse an operation.
impl From<DeskNo> for Jump {
    ghost from_gives = { λ e r. r ≡ of_desk e };

    fn from(e: DeskNo) -> Jump {
        Jump::End(ExecNo::from(e))
    }
}

impl From<em_base::Spent> for Jump {
    ghost from_gives = { λ _ r. r ≡ End Spent };

    fn from(_e: em_base::Spent) -> Jump {
        Jump::End(ExecNo::Spent)
    }
}

impl From<em_base::NoMemory> for Jump {
    ghost from_gives = { λ _ r. r ≡ End NoMemory };

    fn from(_e: em_base::NoMemory) -> Jump {
        Jump::End(ExecNo::NoMemory)
    }
}

impl From<AllocError> for Jump {
    ghost from_gives = { λ _ r. r ≡ End NoMemory };

    fn from(_e: AllocError) -> Jump {
        Jump::End(ExecNo::NoMemory)
    }
}

impl<T: Drop> From<AllocFailed<T>> for Jump {
    ghost from_gives = { λ _ r. r ≡ End NoMemory };

    fn from(_e: AllocFailed<T>) -> Jump {
        Jump::End(ExecNo::NoMemory)
    }
}
