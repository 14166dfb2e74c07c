//! The words of commands, and what commands have written.
use em_base::{NoMemory, Text};
use em_view::{Done, Piece};
use std::alloc::Global;
use std::test::Fail;

pub(super) fn add_all(to: &mut Text, parts: &[&[u8]]) -> Result<(), NoMemory> {
    for part in parts {
        to.add(part)?;
    }
    Ok(())
}

/// The words of a command, which stand between blanks; `~` is an empty word.
pub(super) fn words(alloc: Global, command: &str) -> Result<Vec<Text>, Fail> {
    let mut words = Vec::new(alloc);
    for word in command.split(' ') {
        let word = if word == "~" { "" } else { word };
        words.push(Text::from_slice(alloc, word.as_bytes())?)?;
    }
    Ok(words)
}

fn show_pieces(pieces: &[Piece], log: &mut Text) -> Result<(), NoMemory> {
    for piece in pieces {
        add_all(log, &[&[b'0' | (piece.stream & 7)], piece.text.bytes()])?;
    }
    Ok(())
}

/// Appends the status, and each piece behind the number of its stream.
pub(super) fn show_done(done: &Done, log: &mut Text) -> Result<(), NoMemory> {
    log.add(&[b'0' | (done.status & 7)])?;
    show_pieces(done.pieces.items(), log)
}
