//! What a simple command does once its words and redirections are known.
ghost use Rattle.std.specs.Prelude.{◌≡◌, min};
ghost use Rattle.em_command.specs.Acting as acting;
ghost use Rattle.em_command.specs.Acting.{left_over, perform};
ghost use Rattle.em_command.specs.Jumps.{is_free};
ghost use Rattle.em_view.specs.Actions.{spend};
ghost use Rattle.em_view.specs.Rows as rows;
ghost use Rattle.em_view.specs.Steps.{Does};

use crate::builtin::Ran;
use crate::command::run_command;
use crate::delivery::deliver;
use crate::here::Here;
use crate::jump::Jump;
use crate::streams::Streams;
use em_base::Text;
use em_view::{Desk, DeskNo, Piece, View, blocks};
use std::alloc::Global;

/// How many bytes the pieces have, or the greatest number where they have more.
fn total(pieces: &[Piece]) -> u64
    ensures { result ≡ min (acting.total pieces.now) u64.MAX }
{
    let mut size: u64 = 0;
    for piece in pieces {
        size = size.saturating_add(piece.text.bytes().len() as u64);
    }
    size
}

/// Takes the blocks of what was written.
fn charge<V: View>(pieces: &[Piece], desk: &mut Desk<V>) -> Result<(), DeskNo>
    ensures { rows.Acts V.tells desk.old desk.new result
        (spend (rows.blocks (acting.total pieces.now))) }
{
    desk.take(blocks(total(pieces)))
}

/// Goes on after a command has ended: takes the blocks of what it wrote, and delivers that.
fn left_over<V: View>(
    alloc: Global,
    streams: &Streams,
    ran: Ran,
    here: &mut Here,
    desk: &mut Desk<V>,
) -> Result<(), Jump>
    ensures { Does is_free V.tells desk.old desk.new here.old here.new result
        (left_over streams.now ran) }
{
    charge(ran.done.pieces.items(), desk)?;
    deliver(alloc, streams, ran.done.pieces, here, desk)?;
    ran.flow.jump()
}

/// Runs a simple command whose words and streams are known; the first word is its name, and
/// `input` is what is read around it. Its status is then the shell's, and what it wrote is
/// delivered. Refused are, by name, `emake` and `make`, and the commands that POSIX's shell has and
/// this one doesn't; a name that is neither a built-in nor a utility is `not found`, with status
/// 127.
///
/// It costs what the command asks and changes, then the blocks of what it wrote, and then what the
/// appends cost. Errors: `Exit`, `Break` and `Continue`, after all was delivered; `Refused` by a
/// name or by what a utility refuses; `Spent`.
pub fn perform<V: View>(
    alloc: Global,
    words: &[Text],
    streams: &Streams,
    input: &[u8],
    in_loop: bool,
    here: &mut Here,
    desk: &mut Desk<V>,
) -> Result<(), Jump>
    ensures { Does is_free V.tells desk.old desk.new here.old here.new result
        (perform words.now streams.now input.now in_loop) }
{
    let input = streams.input_bytes(input);
    let ran = run_command(alloc, words, input, in_loop, &mut here.shell, desk)?;
    left_over(alloc, streams, ran, here, desk)
}
