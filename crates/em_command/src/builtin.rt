//! The built-in commands.
ghost use Rattle.std.specs.Prelude.{◌≡◌, ◌==◌, ◌++◌, ◌∷◌, [], false, position, IfOk, OnOk};
ghost use Rattle.em_base.specs.Numbers.{number_of};
ghost use Rattle.em_command.specs.Builtins as builtins;
ghost use Rattle.em_command.specs.Builtins.{well, asked, asked_of, cd, change_directory, directory, settled, export_one, unset_one, each_of_some};
ghost use Rattle.em_utility.specs.Writing.{nothing, faulted};
ghost use Rattle.em_vars.specs.Entries.{value_of};
ghost use Rattle.em_view.specs.Ends.{is_want};
ghost use Rattle.em_view.specs.Performs.{Performs, is_free as free_in};
ghost use Rattle.em_view.specs.Steps.{Does, Works, with_state};
ghost use Rattle.em_utility.specs.Operands.{is_free};

use crate::here::set_variable;
use crate::jump::Flow;
use em_base::{NoMemory, Text, number};
use em_path::Path;
use em_tree::Kind;
use em_utility::{OperandNo, Reason, begun, fail, fault, located, named, read_options, write};
use em_view::{Desk, Done, ExecNo, FileNo, View};
use em_word::Shell;
use std::alloc::Global;

/// The commands that are about the shell itself.
#[derive(Clone, Copy, Debug, PartialEq, Eq)]
pub(crate) enum Builtin {
    Cd,
    Pwd,
    Exit,
    Export,
    Unset,
    Break,
    Continue,
}

/// What a built-in answers.
#[derive(Drop)]
pub(crate) struct BuiltinResult {
    pub(crate) status: u8,
    /// What it writes to stream 1.
    pub(crate) text: Text,
    pub(crate) flow: Flow,
}

/// What a command leaves, and how it goes on.
#[derive(Drop)]
pub(crate) struct Ran {
    pub(crate) done: Done,
    pub(crate) flow: Flow,
}

/// The built-in of a name.
pub(crate) fn builtin_of(name: &[u8]) -> Option<Builtin>
    ensures { result ≡ builtins.builtin_of name.now }
{
    match name {
        b"cd" => Some(Builtin::Cd),
        b"pwd" => Some(Builtin::Pwd),
        b"exit" => Some(Builtin::Exit),
        b"export" => Some(Builtin::Export),
        b"unset" => Some(Builtin::Unset),
        b"break" => Some(Builtin::Break),
        b"continue" => Some(Builtin::Continue),
        _ => None,
    }
}

fn name_of(builtin: Builtin) -> &'static [u8]
    ensures { result.now ≡ builtins.name_of builtin }
{
    match builtin {
        Builtin::Cd => b"cd",
        Builtin::Pwd => b"pwd",
        Builtin::Exit => b"exit",
        Builtin::Export => b"export",
        Builtin::Unset => b"unset",
        Builtin::Break => b"break",
        Builtin::Continue => b"continue",
    }
}

fn answered(status: u8, text: Text, flow: Flow) -> BuiltinResult
    ensures { result ≡ builtins.answer status text flow }
{
    BuiltinResult { status, text, flow }
}

/// It was done, and there is nothing to say.
fn well(alloc: Global) -> BuiltinResult
    ensures { result ≡ well }
{
    answered(0, Text::new(alloc), Flow::On)
}

/// A built-in has too few operands, or too many.
fn wrong(alloc: Global, reason: Reason) -> OperandNo
    ensures { result ≡ builtins.wrong reason }
{
    OperandNo::Fault(Text::new(alloc), reason)
}

/// The path, where a directory is there.
fn only_directory(alloc: Global, name: &[u8], path: Path, kind: Kind) -> Result<Path, OperandNo>
    ensures { free_in is_free result ≡ false → result ≡ builtins.only_directory name.now path kind }
{
    match kind {
        Kind::Dir => Ok(path),
        Kind::File | Kind::Link => Err(fault(alloc, name, Reason::File(FileNo::NotDir))),
        Kind::Absent => Err(fault(alloc, name, Reason::File(FileNo::Absent))),
    }
}

fn directory_at<V: View>(
    alloc: Global,
    name: &[u8],
    path: Path,
    desk: &mut Desk<V>,
) -> Result<Path, OperandNo>
    ensures { Performs is_free V.tells desk.old desk.new result
        (builtins.directory_at name.now path) }
{
    let kind = named(alloc, name, desk.kind(&path))?;
    only_directory(alloc, name, path, kind)
}

/// The path of a name, where a directory is there.
fn directory<V: View>(
    alloc: Global,
    cwd: &Path,
    name: &[u8],
    desk: &mut Desk<V>,
) -> Result<Path, OperandNo>
    ensures { Performs is_free V.tells desk.old desk.new result (directory cwd.now name.now) }
{
    let path = located(alloc, cwd, name)?;
    directory_at(alloc, name, path, desk)
}

/// Goes to the directory of a name.
fn change_directory<V: View>(
    alloc: Global,
    name: &[u8],
    shell: &mut Shell,
    desk: &mut Desk<V>,
) -> Result<BuiltinResult, OperandNo>
    ensures { Does is_free V.tells desk.old desk.new shell.old shell.new result
        (change_directory shell.old.cwd name.now) }
{
    let path = directory(alloc, &shell.cwd, name, desk)?;
    shell.cwd = path;
    Ok(well(alloc))
}

fn cd<V: View>(
    alloc: Global,
    operands: &[Text],
    shell: &mut Shell,
    desk: &mut Desk<V>,
) -> Result<BuiltinResult, OperandNo>
    ensures { Does is_free V.tells desk.old desk.new shell.old shell.new result (cd operands.now) }
{
    match operands {
        [] => Err(wrong(alloc, Reason::MissingOperand)),
        [name] => change_directory(alloc, name.bytes(), shell, desk),
        _ => Err(wrong(alloc, Reason::ExtraOperand)),
    }
}

/// A line of the text alone.
fn line_of(alloc: Global, text: &[u8]) -> Result<Text, NoMemory>
    ensures { IfOk result (λ t. t ≡ text.now ++ 10 ∷ []) }
{
    let mut line = Text::from_slice(alloc, text)?;
    line.add(b"\n")?;
    Ok(line)
}

/// `pwd`
fn pwd(alloc: Global, operands: &[Text], cwd: &Path) -> Result<BuiltinResult, OperandNo>
    ensures { free_in is_free result ≡ false → result ≡ builtins.pwd cwd.now operands.now }
{
    match operands {
        [] => Ok(answered(0, line_of(alloc, cwd.text())?, Flow::On)),
        _ => Err(wrong(alloc, Reason::ExtraOperand)),
    }
}

/// The status with which the shell ends.
fn exit_by(alloc: Global, word: &[u8]) -> Result<BuiltinResult, OperandNo>
    ensures { free_in is_free result ≡ false
        → result ≡ builtins.exit_by word.now (number_of 255 word.now) }
{
    match number(255, word) {
        Some(n) => Ok(answered(n as u8, Text::new(alloc), Flow::Exit)),
        None => Err(fault(alloc, word, Reason::NotANumber)),
    }
}

/// `exit`
fn exit(alloc: Global, operands: &[Text], status: u8) -> Result<BuiltinResult, OperandNo>
    ensures { free_in is_free result ≡ false → result ≡ builtins.exit status operands.now }
{
    match operands {
        [] => Ok(answered(status, Text::new(alloc), Flow::Exit)),
        [word] => exit_by(alloc, word.bytes()),
        _ => Err(wrong(alloc, Reason::ExtraOperand)),
    }
}

/// `break` and `continue`
fn leave(
    alloc: Global,
    operands: &[Text],
    in_loop: bool,
    flow: Flow,
) -> Result<BuiltinResult, OperandNo>
    ensures { free_in is_free result ≡ false → result ≡ builtins.leave in_loop flow operands.now }
{
    if !operands.is_empty() {
        return Err(wrong(alloc, Reason::ExtraOperand));
    }
    let flow = if in_loop { flow } else { Flow::On };
    Ok(answered(0, Text::new(alloc), flow))
}

/// Marks a variable as exported, if the name has one.
fn mark(alloc: Global, name: &[u8], shell: &mut Shell) -> Result<(), NoMemory>
    ensures { OnOk result
        (shell.new ≡ builtins.mark name.now (value_of shell.old.vars name.now) shell.old) }
{
    let text = match shell.vars.get(name) {
        Some(v) => v.text.copy(alloc)?,
        None => return Ok(()),
    };
    set_variable(alloc, name, text, true, shell)
}

fn equals_in(word: &[u8]) -> Option<usize>
    ensures { result ≡ position (λ b. b == 61) word.now }
{
    word.iter().position(|b| *b == b'=')
}

/// `export` of a name, or of a name with its value.
fn export_one(alloc: Global, word: &[u8], shell: &mut Shell) -> Result<(), NoMemory>
    ensures { OnOk result (shell.new ≡ export_one word.now shell.old) }
{
    match equals_in(word) {
        Some(at) => {
            let value = Text::from_slice(alloc, &word[at + 1..])?;
            set_variable(alloc, &word[..at], value, true, shell)
        }
        None => mark(alloc, word, shell),
    }
}

/// `export`
fn export(alloc: Global, operands: &[Text], shell: &mut Shell) -> Result<BuiltinResult, OperandNo>
    ensures { Works is_free shell.old shell.new result (each_of_some export_one operands.now) }
{
    if operands.is_empty() {
        return Err(wrong(alloc, Reason::MissingOperand));
    }
    for word in operands {
        export_one(alloc, word.bytes(), shell)?;
    }
    Ok(well(alloc))
}

/// `unset`
fn unset(alloc: Global, operands: &[Text], shell: &mut Shell) -> Result<BuiltinResult, OperandNo>
    ensures { Works is_free shell.old shell.new result (each_of_some unset_one operands.now) }
{
    if operands.is_empty() {
        return Err(wrong(alloc, Reason::MissingOperand));
    }
    for word in operands {
        shell.vars.undefine(word.bytes());
    }
    Ok(well(alloc))
}

fn asked_of<V: View>(
    alloc: Global,
    builtin: Builtin,
    in_loop: bool,
    operands: &[Text],
    shell: &mut Shell,
    desk: &mut Desk<V>,
) -> Result<BuiltinResult, OperandNo>
    ensures { Does is_free V.tells desk.old desk.new shell.old shell.new result
        (asked_of builtin in_loop operands.now) }
{
    match builtin {
        Builtin::Cd => cd(alloc, operands, shell, desk),
        Builtin::Pwd => pwd(alloc, operands, &shell.cwd),
        Builtin::Exit => exit(alloc, operands, shell.status),
        Builtin::Export => export(alloc, operands, shell),
        Builtin::Unset => unset(alloc, operands, shell),
        Builtin::Break => leave(alloc, operands, in_loop, Flow::Break),
        Builtin::Continue => leave(alloc, operands, in_loop, Flow::Continue),
    }
}

fn asked<V: View>(
    alloc: Global,
    builtin: Builtin,
    in_loop: bool,
    words: &[Text],
    shell: &mut Shell,
    desk: &mut Desk<V>,
) -> Result<BuiltinResult, OperandNo>
    ensures { Does is_free V.tells desk.old desk.new shell.old shell.new result
        (asked builtin in_loop words.now) }
{
    let options = read_options(alloc, name_of(builtin), b"", b"", words)?;
    asked_of(
        alloc,
        builtin,
        in_loop,
        options.operands(words),
        shell,
        desk,
    )
}

/// A command that goes on with what follows.
pub(crate) fn plain(done: Done) -> Ran
    ensures { result ≡ builtins.plain done }
{
    Ran {
        done,
        flow: Flow::On,
    }
}

/// What the answer leaves.
fn ran_of(alloc: Global, answer: BuiltinResult) -> Result<Ran, NoMemory>
    ensures { IfOk result (λ r. r ≡ builtins.ran answer) }
{
    let mut done = begun(alloc);
    write(&mut done, 1, answer.text)?;
    done.status = answer.status;
    Ok(Ran {
        done,
        flow: answer.flow,
    })
}

/// What a fault leaves: its line.
fn faulted(alloc: Global, name: &[u8], word: &[u8], reason: Reason) -> Result<Ran, NoMemory>
    ensures { IfOk result (λ r. r ≡ builtins.plain (faulted name.now word.now reason nothing)) }
{
    let mut done = begun(alloc);
    fail(alloc, &mut done, name, word, reason)?;
    Ok(plain(done))
}

fn settled(
    alloc: Global,
    name: &[u8],
    given: Result<BuiltinResult, OperandNo>,
) -> Result<Ran, ExecNo>
    ensures { free_in is_want result ≡ false → (s : Shell)
        → with_state result s ≡ settled name.now (with_state given s) }
{
    match given {
        Ok(answer) => Ok(ran_of(alloc, answer)?),
        Err(OperandNo::Fault(word, reason)) => Ok(faulted(alloc, name, word.bytes(), reason)?),
        Err(OperandNo::End(no)) => Err(no),
    }
}

/// Runs a built-in with the words behind its name.
pub(crate) fn run_builtin<V: View>(
    alloc: Global,
    builtin: Builtin,
    in_loop: bool,
    words: &[Text],
    shell: &mut Shell,
    desk: &mut Desk<V>,
) -> Result<Ran, ExecNo>
    ensures { Does is_want V.tells desk.old desk.new shell.old shell.new result
        (builtins.builtin builtin in_loop words.now) }
{
    let given = asked(alloc, builtin, in_loop, words, shell, desk);
    settled(alloc, name_of(builtin), given)
}
