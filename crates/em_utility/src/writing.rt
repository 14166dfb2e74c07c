//! What a command has written so far, and its status.
ghost use Rattle.std.specs.Prelude.{◌≡◌, OnErr, OnOk};
ghost use Rattle.em_utility.specs.Writing.{nothing, written, faulted};

use crate::reason::{Reason, error_line};
use em_base::{NoMemory, Seq, Text};
use em_view::{Done, Piece};
use std::alloc::Global;

/// A command that has written nothing yet; its status is 0.
pub fn begun(alloc: Global) -> Done
    ensures { result ≡ nothing }
{
    Done {
        status: 0,
        pieces: Seq::new(alloc),
    }
}

/// Writes a text to a stream as one piece; an empty text leaves none.
pub fn write(done: &mut Done, stream: u8, text: Text) -> Result<(), NoMemory>
    ensures ok { OnOk result (done.new ≡ written stream text done.old) }
    ensures err { OnErr result (done.new ≡ done.old) }
{
    if text.bytes().is_empty() {
        return Ok(());
    }
    done.pieces.push(Piece { stream, text })
}

/// Writes a reason's error line, and raises the status to that of the reason, where it is lower.
pub fn fail(
    alloc: Global,
    done: &mut Done,
    utility: &[u8],
    operand: &[u8],
    reason: Reason,
) -> Result<(), NoMemory>
    ensures ok { OnOk result (done.new ≡ faulted utility.now operand.now reason done.old) }
    ensures err { OnErr result (done.new ≡ done.old) }
{
    let line = error_line(alloc, utility, operand, reason.text())?;
    write(done, 2, line)?;
    done.status = done.status.max(reason.status());
    Ok(())
}
