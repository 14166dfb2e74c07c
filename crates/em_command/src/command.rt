//! A command by its words.
ghost use Rattle.std.specs.Prelude.{◌≡◌, drop, map, IfOk};
ghost use Rattle.std.specs.List.{list_any};
ghost use Rattle.std.specs.Str.{bytes_eq};
ghost use Rattle.em_view.specs.Ends.{is_want};
ghost use Rattle.em_view.specs.Performs.{Performs};
ghost use Rattle.em_view.specs.Steps.{Does};
ghost use Rattle.em_command.specs.Builtins as builtins;
ghost use Rattle.em_command.specs.Commands as commands;
ghost use Rattle.em_command.specs.Commands.{is_make, refused_names, run, run_command, text_utility, utility, by_builtin, by_refusal};

use crate::builtin::{Ran, builtin_of, plain, run_builtin};
use em_base::{Construct, NoMemory, Seq, Text};
use em_path::Path;
use em_utility::{begun, error_line};
use em_view::{Desk, Done, ExecNo, Piece, View};
use em_word::Shell;
use std::alloc::Global;

static REFUSED: [&[u8]; 19] = [
    b"alias",
    b".",
    b"command",
    b"eval",
    b"exec",
    b"getopts",
    b"jobs",
    b"read",
    b"readonly",
    b"return",
    b"set",
    b"shift",
    b"source",
    b"times",
    b"trap",
    b"type",
    b"ulimit",
    b"umask",
    b"wait",
];

/// The names of the commands that are refused by their names.
fn refused_names() -> &'static [&'static [u8]]
    ensures { map (λ n. n.now) result.now ≡ refused_names }
{
    &REFUSED
}

fn is_refused(name: &[u8]) -> bool
    ensures { result ≡ list_any (bytes_eq name.now) refused_names }
{
    refused_names().iter().any(|n| name == *n)
}

fn is_make(name: &[u8]) -> bool
    ensures { result ≡ is_make name.now }
{
    name == b"emake".as_slice() || name == b"make".as_slice()
}

/// The construct under which a command of this name is refused.
fn refused_as(alloc: Global, name: &[u8]) -> Result<Option<Construct>, NoMemory>
    ensures { IfOk result (λ c. c ≡ commands.refused_as name.now) }
{
    if is_make(name) {
        return Ok(Some(Construct::Submake));
    }
    if is_refused(name) {
        return Ok(Some(Construct::Command(Text::from_slice(alloc, name)?)));
    }
    Ok(None)
}

/// What a command leaves that isn't there.
fn not_found(alloc: Global, name: &[u8]) -> Result<Done, NoMemory>
    ensures { IfOk result (λ d. d ≡ commands.not_found name.now) }
{
    let text = error_line(alloc, b"sh", name, b"not found")?;
    let mut pieces = Seq::new(alloc);
    pieces.push(Piece { stream: 2, text })?;
    Ok(Done {
        status: 127,
        pieces,
    })
}

fn text_utility<V: View>(
    alloc: Global,
    name: &[u8],
    words: &[Text],
    input: &[u8],
    cwd: &Path,
    desk: &mut Desk<V>,
) -> Result<Ran, ExecNo>
    ensures { Performs is_want V.tells desk.old desk.new result
        (text_utility name.now words.now input.now cwd.now) }
{
    match em_textutil::utility(alloc, words, input, cwd, desk)? {
        Some(done) => Ok(plain(done)),
        None => Ok(plain(not_found(alloc, name)?)),
    }
}

/// The utility of a name, with all words of the command.
fn utility<V: View>(
    alloc: Global,
    name: &[u8],
    words: &[Text],
    input: &[u8],
    cwd: &Path,
    desk: &mut Desk<V>,
) -> Result<Ran, ExecNo>
    ensures { Performs is_want V.tells desk.old desk.new result
        (utility name.now words.now input.now cwd.now) }
{
    match em_fileutil::utility(alloc, words, input, cwd, desk)? {
        Some(done) => Ok(plain(done)),
        None => text_utility(alloc, name, words, input, cwd, desk),
    }
}

/// The words behind the first.
fn behind(words: &[Text]) -> &[Text]
    ensures { result.now ≡ drop 1 words.now }
{
    words.get(1..).unwrap_or(&[])
}

fn by_builtin<V: View>(
    alloc: Global,
    name: &[u8],
    words: &[Text],
    input: &[u8],
    in_loop: bool,
    shell: &mut Shell,
    desk: &mut Desk<V>,
) -> Result<Ran, ExecNo>
    ensures { Does is_want V.tells desk.old desk.new shell.old shell.new result
        (by_builtin (builtins.builtin_of name.now) name.now words.now input.now in_loop) }
{
    match builtin_of(name) {
        Some(builtin) => { run_builtin(alloc, builtin, in_loop, behind(words), shell, desk) }
        None => utility(alloc, name, words, input, &shell.cwd, desk),
    }
}

fn by_refusal<V: View>(
    alloc: Global,
    name: &[u8],
    words: &[Text],
    input: &[u8],
    in_loop: bool,
    shell: &mut Shell,
    desk: &mut Desk<V>,
) -> Result<Ran, ExecNo>
    ensures { Does is_want V.tells desk.old desk.new shell.old shell.new result
        (by_refusal (commands.refused_as name.now) name.now words.now input.now in_loop) }
{
    match refused_as(alloc, name)? {
        Some(construct) => Err(ExecNo::Refused(construct)),
        None => by_builtin(alloc, name, words, input, in_loop, shell, desk),
    }
}

fn run<V: View>(
    alloc: Global,
    words: &[Text],
    input: &[u8],
    in_loop: bool,
    shell: &mut Shell,
    desk: &mut Desk<V>,
) -> Result<Ran, ExecNo>
    ensures { Does is_want V.tells desk.old desk.new shell.old shell.new result
        (run words.now input.now in_loop) }
{
    match words.first() {
        Some(name) => by_refusal(alloc, name.bytes(), words, input, in_loop, shell, desk),
        None => Ok(plain(begun(alloc))),
    }
}

/// Runs the command that the first word names; without words nothing is done. Its status is then
/// the shell's.
pub(crate) fn run_command<V: View>(
    alloc: Global,
    words: &[Text],
    input: &[u8],
    in_loop: bool,
    shell: &mut Shell,
    desk: &mut Desk<V>,
) -> Result<Ran, ExecNo>
    ensures { Does is_want V.tells desk.old desk.new shell.old shell.new result
        (run_command words.now input.now in_loop) }
{
    let ran = run(alloc, words, input, in_loop, shell, desk)?;
    shell.status = ran.done.status;
    Ok(ran)
}
