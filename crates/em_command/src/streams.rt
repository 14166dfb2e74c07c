//! Where the streams of a command go.
ghost use Rattle.std.specs.Prelude.{◌≡◌, IfOk};
ghost use Rattle.em_command.specs.Jumps as jumps;
ghost use Rattle.em_command.specs.Streams as streams;
ghost use Rattle.em_command.specs.Streams.{around, input_of, emptied, added, held, open_file, source_of, is_null, content_of, sink_for, attached, duplicate_to, duplicated, opened, at_path, connect, shown, redirected};
ghost use Rattle.em_view.specs.Performs.{Performs};
ghost use Rattle.em_view.specs.Steps.{Does, Works};
ghost use Rattle.em_utility.specs.Operands.{is_free};

use crate::here::Here;
use crate::jump::Jump;
use em_base::{Construct, NoMemory, Seq, Text};
use em_path::Path;
use em_syntax::RedirectKind;
use em_tree::{Body, Kind};
use em_utility::{OperandNo, Reason, fault, located, named, read};
use em_view::{Desk, ExecNo, FileNo, View};
use std::alloc::Global;

/// Where a stream goes.
#[derive(Clone, Copy, Debug, PartialEq, Eq)]
pub enum Sink {
    /// To stream 1 around the command.
    Output,
    /// To stream 2 around it.
    Errors,
    /// It is swallowed.
    Nowhere,
    /// To the file that was opened as the one of this number, counted from 0.
    File(usize),
}

/// A file that is written to: the word that said it, and its path.
#[derive(Drop)]
pub struct OpenedFile {
    pub word: Text,
    pub path: Path,
}

/// Where the streams of a command go.
#[derive(Drop)]
pub struct Streams {
    pub output: Sink,
    pub errors: Sink,
    /// What it reads, where that isn't what is read around it.
    pub input: Option<Body>,
    /// The files that were opened to be written, in order.
    pub files: Seq<OpenedFile>,
}

/// What a redirection has found at its path.
#[derive(Drop)]
pub(crate) enum RedirectTarget {
    /// `/dev/null`
    Null,
    /// A file that is written to.
    Writes(Path),
    /// What a file holds that is read.
    Holds(Body),
}

impl Streams {
    /// The streams without a redirection.
    pub fn around(alloc: Global) -> Streams
        ensures { result ≡ around }
    {
        Streams {
            output: Sink::Output,
            errors: Sink::Errors,
            input: None,
            files: Seq::new(alloc),
        }
    }

    /// What the command reads, where `around` is read around it. No bytes are copied.
    pub fn input(&self, around: &Body) -> Result<Body, NoMemory>
        ensures { IfOk result (λ b. b ≡ input_of self.now around.now) }
    {
        match &self.input {
            Some(body) => body.copy(),
            None => around.copy(),
        }
    }

    /// The bytes that the command reads.
    pub(crate) fn input_bytes<'a>(&'a self, around: &'a [u8]) -> &'a [u8]
        ensures { result.now ≡ input_of self.now around.now }
    {
        match &self.input {
            Some(body) => body.bytes(),
            None => around,
        }
    }
}

/// Whether the path is that of the empty device.
fn is_null(path: &Path) -> bool
    ensures { result ≡ is_null path.now }
{
    path.text() == b"/dev/null".as_slice()
}

/// `>`: an empty file.
fn emptied<V: View>(
    alloc: Global,
    word: &[u8],
    path: Path,
    desk: &mut Desk<V>,
) -> Result<RedirectTarget, OperandNo>
    ensures { Performs is_free V.tells desk.old desk.new result (emptied word.now path) }
{
    named(alloc, word, desk.put(&path, b""))?;
    Ok(RedirectTarget::Writes(path))
}

/// `>>`: an empty file where nothing is there.
fn added<V: View>(
    alloc: Global,
    word: &[u8],
    path: Path,
    desk: &mut Desk<V>,
) -> Result<RedirectTarget, OperandNo>
    ensures { Performs is_free V.tells desk.old desk.new result (added word.now path) }
{
    match named(alloc, word, desk.kind(&path))? {
        Kind::Absent => emptied(alloc, word, path, desk),
        Kind::File => Ok(RedirectTarget::Writes(path)),
        Kind::Link => Ok(RedirectTarget::Writes(path)),
        Kind::Dir => Err(fault(alloc, word, Reason::File(FileNo::IsDir))),
    }
}

/// `<`: what the file holds.
fn held<V: View>(
    alloc: Global,
    cwd: &Path,
    word: &[u8],
    desk: &mut Desk<V>,
) -> Result<RedirectTarget, OperandNo>
    ensures { Performs is_free V.tells desk.old desk.new result (held cwd.now word.now) }
{
    Ok(RedirectTarget::Holds(read(alloc, cwd, word, desk)?))
}

/// What a redirection finds at a path other than `/dev/null`.
fn open_file<V: View>(
    alloc: Global,
    cwd: &Path,
    kind: RedirectKind,
    word: &[u8],
    path: Path,
    desk: &mut Desk<V>,
) -> Result<RedirectTarget, OperandNo>
    ensures { Performs is_free V.tells desk.old desk.new result
        (open_file cwd.now kind word.now path) }
{
    match kind {
        RedirectKind::Write => emptied(alloc, word, path, desk),
        RedirectKind::Append => added(alloc, word, path, desk),
        RedirectKind::Read => held(alloc, cwd, word, desk),
        RedirectKind::Duplicate => Ok(RedirectTarget::Null),
    }
}

/// What a redirection finds at its path.
fn source_of<V: View>(
    alloc: Global,
    cwd: &Path,
    kind: RedirectKind,
    word: &[u8],
    desk: &mut Desk<V>,
) -> Result<RedirectTarget, OperandNo>
    ensures { Performs is_free V.tells desk.old desk.new result (source_of cwd.now kind word.now) }
{
    let path = located(alloc, cwd, word)?;
    if is_null(&path) {
        return Ok(RedirectTarget::Null);
    }
    open_file(alloc, cwd, kind, word, path, desk)
}

/// What is read of a source: a file that is written is empty.
fn content_of(alloc: Global, source: RedirectTarget) -> Result<Body, NoMemory>
    ensures { IfOk result (λ b. b ≡ content_of source) }
{
    match source {
        RedirectTarget::Holds(body) => Ok(body),
        RedirectTarget::Null | RedirectTarget::Writes(_) => Body::from_slice(alloc, b""),
    }
}

/// Where what is written to a source goes: a file that is read swallows.
fn sink_for(source: &RedirectTarget, files: &Seq<OpenedFile>) -> Sink
    ensures { result ≡ sink_for source.now files.now }
{
    match source {
        RedirectTarget::Writes(_) => Sink::File(files.len()),
        RedirectTarget::Null | RedirectTarget::Holds(_) => Sink::Nowhere,
    }
}

/// The files with the one that is written to.
fn files_with(
    alloc: Global,
    word: &[u8],
    source: RedirectTarget,
    files: Seq<OpenedFile>,
) -> Result<Seq<OpenedFile>, NoMemory>
    ensures { IfOk result (λ fs. fs ≡ streams.files_with word.now source files) }
{
    let RedirectTarget::Writes(path) = source else {
        return Ok(files);
    };
    let mut files = files;
    let word = Text::from_slice(alloc, word)?;
    files.push(OpenedFile { word, path })?;
    Ok(files)
}

/// The streams with one of them at a source.
fn attached(
    alloc: Global,
    fd: u8,
    word: &[u8],
    source: RedirectTarget,
    streams: Streams,
) -> Result<Streams, NoMemory>
    ensures { IfOk result (λ s. s ≡ attached fd word.now source streams) }
{
    let mut streams = streams;
    let sink = sink_for(&source, &streams.files);
    match fd {
        0 => streams.input = Some(content_of(alloc, source)?),
        1 => {
            streams.output = sink;
            streams.files = files_with(alloc, word, source, streams.files)?;
        }
        _ => {
            streams.errors = sink;
            streams.files = files_with(alloc, word, source, streams.files)?;
        }
    }
    Ok(streams)
}

fn duplicate_to(fd: u8, sink: Sink, streams: Streams) -> Result<Streams, OperandNo>
    ensures { result ≡ duplicate_to fd sink streams }
{
    let mut streams = streams;
    match fd {
        1 => streams.output = sink,
        2 => streams.errors = sink,
        _ => return Err(OperandNo::End(ExecNo::Refused(Construct::Descriptor))),
    }
    Ok(streams)
}

/// `>&`
fn duplicated(fd: u8, word: &[u8], streams: Streams) -> Result<Streams, OperandNo>
    ensures { result ≡ duplicated fd word.now streams }
{
    let sink = match word {
        b"1" => streams.output,
        b"2" => streams.errors,
        _ => return Err(OperandNo::End(ExecNo::Refused(Construct::Descriptor))),
    };
    duplicate_to(fd, sink, streams)
}

fn open_for<V: View>(
    alloc: Global,
    cwd: &Path,
    fd: u8,
    kind: RedirectKind,
    word: &[u8],
    streams: Streams,
    desk: &mut Desk<V>,
) -> Result<Streams, OperandNo>
    ensures { Performs is_free V.tells desk.old desk.new result
        (opened cwd.now fd kind word.now streams) }
{
    let source = source_of(alloc, cwd, kind, word, desk)?;
    Ok(attached(alloc, fd, word, source, streams)?)
}

/// A redirection of a stream to or from a path.
fn at_path<V: View>(
    alloc: Global,
    cwd: &Path,
    fd: u8,
    kind: RedirectKind,
    word: &[u8],
    streams: Streams,
    desk: &mut Desk<V>,
) -> Result<Streams, OperandNo>
    ensures { Performs is_free V.tells desk.old desk.new result
        (at_path cwd.now fd kind word.now streams) }
{
    if fd > 2 {
        return Err(OperandNo::End(ExecNo::Refused(Construct::Descriptor)));
    }
    open_for(alloc, cwd, fd, kind, word, streams, desk)
}

/// The streams behind a redirection.
fn connect<V: View>(
    alloc: Global,
    cwd: &Path,
    fd: u8,
    kind: RedirectKind,
    word: &[u8],
    streams: Streams,
    desk: &mut Desk<V>,
) -> Result<Streams, OperandNo>
    ensures { Performs is_free V.tells desk.old desk.new result
        (connect cwd.now fd kind word.now streams) }
{
    match kind {
        RedirectKind::Duplicate => duplicated(fd, word, streams),
        _ => at_path(alloc, cwd, fd, kind, word, streams, desk),
    }
}

/// Writes why a redirection failed, if it did.
fn shown(
    alloc: Global,
    given: Result<Streams, OperandNo>,
    here: &mut Here,
) -> Result<Option<Streams>, Jump>
    ensures { Works jumps.is_free here.old here.new result (shown given) }
{
    match given {
        Ok(streams) => Ok(Some(streams)),
        Err(OperandNo::Fault(word, reason)) => {
            here.complain(alloc, word.bytes(), reason)?;
            Ok(None)
        }
        Err(OperandNo::End(no)) => Err(Jump::End(no)),
    }
}

/// A redirection acts: `>` puts an empty file, `>>` one where nothing is there, `<` reads a file,
/// and `>&` lets a stream go where another one goes now. `/dev/null` is empty and swallows; nothing
/// is asked for it. The streams behind it come back, or none where it failed: then why was written,
/// and the status is 1. Errors: `Refused` by a stream other than 0, 1 and 2, and by a `>&` from or
/// to another one than 1 and 2; `Spent`, where fuel doesn't suffice.
pub fn redirect<V: View>(
    alloc: Global,
    fd: u8,
    kind: RedirectKind,
    word: &[u8],
    streams: Streams,
    here: &mut Here,
    desk: &mut Desk<V>,
) -> Result<Option<Streams>, Jump>
    ensures { Does jumps.is_free V.tells desk.old desk.new here.old here.new result
        (redirected fd kind word.now streams) }
{
    let given = connect(alloc, &here.shell.cwd, fd, kind, word, streams, desk);
    shown(alloc, given, here)
}
