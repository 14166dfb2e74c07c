//! Where what a command wrote goes.
ghost use Rattle.std.specs.Prelude.{◌≡◌, ◌++◌, IfOk, OnOk};
ghost use Rattle.em_command.specs.Delivering as delivering;
ghost use Rattle.em_command.specs.Delivering.{sink_of, through, into, append_some, append, told, appended, append_each, delivered};
ghost use Rattle.em_command.specs.Heres.{written};
ghost use Rattle.em_command.specs.Jumps as jumps;
ghost use Rattle.em_view.specs.Performs.{Performs};
ghost use Rattle.em_view.specs.Steps.{Does, Works};
ghost use Rattle.em_utility.specs.Operands.{is_free};

use crate::here::Here;
use crate::jump::Jump;
use crate::streams::{OpenedFile, Sink, Streams};
use em_base::{NoMemory, Seq, Text};
use em_utility::{OperandNo, named};
use em_view::{Desk, Piece, View};
use std::alloc::Global;

fn sink_of(streams: &Streams, piece: &Piece) -> Sink
    ensures { result ≡ sink_of streams.now piece.now }
{
    if piece.stream == 1 {
        streams.output
    } else {
        streams.errors
    }
}

/// Hands a text on to where its sink goes, if that is a stream around.
fn pass(sink: Sink, text: Text, here: &mut Here) -> Result<(), NoMemory>
    ensures { OnOk result (here.new ≡ written (through sink text) here.old) }
{
    match sink {
        Sink::Output => here.pieces.push(Piece { stream: 1, text }),
        Sink::Errors => here.pieces.push(Piece { stream: 2, text }),
        Sink::Nowhere | Sink::File(_) => Ok(()),
    }
}

/// Hands on what goes to the streams around, as these streams say. No bytes are copied.
pub fn hand(streams: &Streams, pieces: Seq<Piece>, here: &mut Here) -> Result<(), Jump>
    ensures { Works jumps.is_free here.old here.new result (delivering.hand streams.now pieces) }
{
    for piece in pieces.into_vec() {
        let sink = sink_of(streams, &piece);
        pass(sink, piece.text, here)?;
    }
    Ok(())
}

/// Appends what goes into the file of a number.
fn add_to(i: usize, sink: Sink, text: &[u8], all: &mut Text) -> Result<(), NoMemory>
    ensures { OnOk result (all.new ≡ all.old ++ into i sink text.now) }
{
    match sink {
        Sink::File(k) if k == i => all.add(text),
        _ => Ok(()),
    }
}

/// What goes to the file of a number.
fn text_for(alloc: Global, streams: &Streams, i: usize, pieces: &[Piece]) -> Result<Text, NoMemory>
    ensures { IfOk result (λ t. t ≡ delivering.text_for streams.now i pieces.now) }
{
    let mut all = Text::new(alloc);
    for piece in pieces {
        add_to(i, sink_of(streams, piece), piece.text.bytes(), &mut all)?;
    }
    Ok(all)
}

/// What goes to each file.
fn texts_for(alloc: Global, streams: &Streams, pieces: &[Piece]) -> Result<Seq<Text>, NoMemory>
    ensures { IfOk result (λ ts. ts ≡ delivering.texts_for streams.now pieces.now) }
{
    let mut texts = Seq::new(alloc);
    for (i, _file) in streams.files.items().iter().enumerate() {
        texts.push(text_for(alloc, streams, i, pieces)?)?;
    }
    Ok(texts)
}

fn joined(alloc: Global, bytes: &[u8], text: &[u8]) -> Result<Text, NoMemory>
    ensures { IfOk result (λ t. t ≡ bytes.now ++ text.now) }
{
    let mut all = Text::from_slice(alloc, bytes)?;
    all.add(text)?;
    Ok(all)
}

fn append_some<V: View>(
    alloc: Global,
    file: &OpenedFile,
    text: &[u8],
    desk: &mut Desk<V>,
) -> Result<(), OperandNo>
    ensures { Performs is_free V.tells desk.old desk.new result
        (append_some file.now.word file.now.path text.now) }
{
    let word = file.word.bytes();
    let Some(body) = named(alloc, word, desk.content(&file.path))? else {
        return Ok(());
    };
    let all = joined(alloc, body.bytes(), text)?;
    named(alloc, word, desk.put(&file.path, all.bytes()))
}

/// Appends a text to a file, where it isn't empty and the file is there.
fn append<V: View>(
    alloc: Global,
    file: &OpenedFile,
    text: &[u8],
    desk: &mut Desk<V>,
) -> Result<(), OperandNo>
    ensures { Performs is_free V.tells desk.old desk.new result (append file.now text.now) }
{
    if text.is_empty() {
        return Ok(());
    }
    append_some(alloc, file, text, desk)
}

/// Writes why an append was refused, if it was.
fn told(alloc: Global, given: Result<(), OperandNo>, here: &mut Here) -> Result<(), Jump>
    ensures { Works jumps.is_free here.old here.new result (told given) }
{
    match given {
        Ok(()) => Ok(()),
        Err(OperandNo::Fault(word, reason)) => here.complain(alloc, word.bytes(), reason),
        Err(OperandNo::End(no)) => Err(Jump::End(no)),
    }
}

fn appended<V: View>(
    alloc: Global,
    file: &OpenedFile,
    text: &[u8],
    here: &mut Here,
    desk: &mut Desk<V>,
) -> Result<(), Jump>
    ensures { Does jumps.is_free V.tells desk.old desk.new here.old here.new result
        (appended file.now text.now) }
{
    let given = append(alloc, file, text, desk);
    told(alloc, given, here)
}

/// Appends to one file after another the text of its place.
fn append_each<V: View>(
    alloc: Global,
    files: &[OpenedFile],
    texts: &[Text],
    here: &mut Here,
    desk: &mut Desk<V>,
) -> Result<(), Jump>
    ensures { Does jumps.is_free V.tells desk.old desk.new here.old here.new result
        (append_each files.now texts.now) }
{
    for (i, file) in files.iter().enumerate() {
        let Some(text) = texts.get(i) else {
            return Ok(());
        };
        appended(alloc, file, text.bytes(), here, desk)?;
    }
    Ok(())
}

/// Delivers what a command or a compound wrote: hands on what goes to the streams around it, and
/// then appends to the files that its redirections opened what goes there, each by one `content`
/// and one `put`, where it isn't empty. It is dropped where the path is no file then. Where the put
/// is refused, why is written to stream 2 around, and the status is 1. The error is `Spent`, where
/// fuel doesn't suffice. Steps for each byte that goes to a file, and for each piece times the
/// files.
pub fn deliver<V: View>(
    alloc: Global,
    streams: &Streams,
    pieces: Seq<Piece>,
    here: &mut Here,
    desk: &mut Desk<V>,
) -> Result<(), Jump>
    ensures { Does jumps.is_free V.tells desk.old desk.new here.old here.new result
        (delivered streams.now pieces) }
{
    let texts = texts_for(alloc, streams, pieces.items())?;
    hand(streams, pieces, here)?;
    append_each(alloc, streams.files.items(), texts.items(), here, desk)
}
