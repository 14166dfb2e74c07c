//! Bytes, to a writer and from a reader, in loops that end.
ghost use Rattle.std.specs.Prelude.{◌≡◌, ◌⊎◌, ◌≤◌, ℕ, take, length, IfOk, OnOk, OnErr};
ghost use Rattle.std.specs.Io.KnownBytes.{Appends, Consumes, IsAtEnd};

use crate::stop::{Reason, Stop, go_on_after};
use std::alloc::Global;
use std::io::{Read, Write};

/// How many reads, or writes, one call makes at most. One that needs more fails.
const MOST_TURNS: u64 = 4_294_967_296;

/// How many bytes are read of a file at most: one more than the longest image. What is longer, as a
/// report can be, is cut there.
pub(crate) const MOST_BYTES: usize = 67_108_865;

/// How many bytes one read asks for.
const PIECE: usize = 65_536;

/// What is left to read, up to `MOST_BYTES`, with room for so many bytes at once.
pub(crate) fn read_whole<R: Read>(alloc: Global, from: &mut R, room: usize) -> Result<Vec<u8>, Stop>
    ensures whole { IfOk result
        (λ bytes. Consumes (R.remaining from.old) (R.remaining from.new) bytes.items) }
    ensures end { IfOk result (λ bytes.
        IsAtEnd (R.remaining from.new) ⊎ (length bytes.items ≡ MOST_BYTES)) }
{
    let mut whole = Vec::with_capacity(alloc, room)?;
    let mut piece = [0u8; PIECE];
    for _ in 0..MOST_TURNS {
        let most = (MOST_BYTES - whole.len()).min(PIECE);
        if most == 0 {
            return Ok(whole);
        }
        match from.read(&mut piece[..most]) {
            Ok(0) => return Ok(whole),
            Ok(n) => whole.extend_from_slice(&piece[..n])?,
            Err(e) => go_on_after(e)?,
        }
    }
    Err(Stop::Because(Reason::NoProgress))
}

/// Writes all of the bytes. On Err a front of them was written.
pub(crate) fn write_whole<W: Write>(to: &mut W, bytes: &[u8]) -> Result<(), Stop>
    ensures whole { OnOk result (Appends (W.contents to.old) (W.contents to.new) bytes.now) }
    ensures front { OnErr result
        ((n : ℕ) × Appends (W.contents to.old) (W.contents to.new) (take n bytes.now)) }
{
    let mut rest = bytes;
    for _ in 0..MOST_TURNS {
        if rest.is_empty() {
            return Ok(());
        }
        match to.write(rest) {
            Ok(0) => return Err(Stop::Because(Reason::NoProgress)),
            Ok(n) => rest = &rest[n..],
            Err(e) => go_on_after(e)?,
        }
    }
    Err(Stop::Because(Reason::NoProgress))
}
