//! Turns of loops.
ghost use Rattle.std.specs.Prelude.{◌≡◌};
ghost use Rattle.em_exec.specs.Copies as copies;
ghost use Rattle.em_exec.specs.Running as running;

use em_command::Jump;

/// How a part of a loop's turn ended.
#[derive(Clone, Copy, Debug, PartialEq, Eq)]
pub(crate) enum LoopTurn {
    /// At its end.
    Whole,
    /// By `break`.
    Broken,
    /// By `continue`.
    Continued,
}

/// `break` and `continue` end in the loop; the error is what goes on around it.
pub(crate) fn turn_of(ended: Result<(), Jump>) -> Result<LoopTurn, Jump>
    ensures { result ≡ copies.turn_of ended }
{
    match ended {
        Ok(()) => Ok(LoopTurn::Whole),
        Err(Jump::Break) => Ok(LoopTurn::Broken),
        Err(Jump::Continue) => Ok(LoopTurn::Continued),
        Err(Jump::Exit) => Err(Jump::Exit),
        Err(Jump::End(e)) => Err(Jump::End(e)),
    }
}

/// Whether the status of its test lets a loop go on.
pub(crate) fn goes_on(until: bool, status: u8) -> bool
    ensures { result ≡ running.goes_on until status }
{
    if until { status != 0 } else { status == 0 }
}

/// Whether the status lets the pipeline behind `&&`, or else `||`, run.
pub(crate) fn goes_with(and: bool, status: u8) -> bool
    ensures { result ≡ running.goes_with and status }
{
    if and { status == 0 } else { status != 0 }
}

/// The status of the body in a turn, or none where the loop ends with it.
pub(crate) fn body_status(turn: LoopTurn, status: u8) -> Option<u8>
    ensures { result ≡ running.body_status turn status }
{
    match turn {
        LoopTurn::Broken => None,
        LoopTurn::Whole | LoopTurn::Continued => Some(status),
    }
}

/// Whether the loop ends with it.
pub(crate) fn is_broken(turn: LoopTurn) -> bool
    ensures { result ≡ running.is_broken turn }
{
    match turn {
        LoopTurn::Broken => true,
        LoopTurn::Whole | LoopTurn::Continued => false,
    }
}

/// What `!` makes of a status.
pub(crate) fn opposite(status: u8) -> u8
    ensures { result ≡ running.opposite status }
{
    if status == 0 { 1 } else { 0 }
}
