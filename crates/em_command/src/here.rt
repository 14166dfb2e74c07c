//! A shell on its way, with what it has written.
ghost use Rattle.std.specs.Prelude.{◌≡◌, false, IfOk, OnOk};
ghost use Rattle.em_command.specs.Heres as heres;
ghost use Rattle.em_command.specs.Heres.{branch, written, wrote, complained, rejoined, overheard, text_on, off, ended_as, is_exported, with_text, failed, faulted};
ghost use Rattle.em_command.specs.Jumps.{is_free};
ghost use Rattle.em_vars.specs.Entries.{value_of};
ghost use Rattle.em_view.specs.Steps.{Works};

use crate::jump::Jump;
use em_base::{NoMemory, Seq, Text};
use em_tree::Body;
use em_utility::{Reason, error_line};
use em_vars::{Flavour, Origin, Var, Vars};
use em_view::{ExecNo, Piece};
use em_word::{Shell, WordFault};
use std::alloc::Global;

/// A shell on its way, with what it has written.
#[derive(Drop)]
pub struct Here {
    pub shell: Shell,
    /// What was written to the streams around, in order.
    pub pieces: Seq<Piece>,
    /// The status of the last command substitution of the simple command, 0 without one.
    pub substituted: u8,
}

/// Where commands stand.
#[derive(Drop)]
pub struct Scene {
    /// What they read.
    pub input: Body,
    /// Whether a loop of this shell is around them.
    pub in_loop: bool,
}

impl Here {
    /// A shell that has written nothing yet.
    pub fn new(alloc: Global, shell: Shell) -> Here
        ensures { result ≡ heres.begun shell }
    {
        Here {
            shell,
            pieces: Seq::new(alloc),
            substituted: 0,
        }
    }

    /// A copy of the shell, which has written nothing yet. Steps for each byte of its variables.
    pub fn branch(&self, alloc: Global) -> Result<Here, NoMemory>
        ensures { IfOk result (λ h. h ≡ branch self.now) }
    {
        let shell = Shell {
            vars: self.shell.vars.copy(alloc)?,
            cwd: self.shell.cwd.copy()?,
            status: self.shell.status,
        };
        Ok(Here::new(alloc, shell))
    }

    /// Writes a text to a stream.
    pub fn write(&mut self, stream: u8, text: Text) -> Result<(), Jump>
        ensures { Works is_free self.old self.new result (wrote stream text) }
    {
        self.pieces.push(Piece { stream, text })?;
        Ok(())
    }

    /// Writes why a redirection failed, `emake: sh: WORD: REASON`. The status is 1.
    pub fn complain(&mut self, alloc: Global, word: &[u8], reason: Reason) -> Result<(), Jump>
        ensures { Works is_free self.old self.new result (complained word.now reason) }
    {
        self.write(2, error_line(alloc, b"sh", word, reason.text())?)?;
        self.shell.status = 1;
        Ok(())
    }

    /// Goes on after a copy of the shell that has ended: what it wrote was written here, and its
    /// status is the shell's. `exit` and its like end the copy alone; the error is what has no end.
    /// No bytes are copied.
    pub fn rejoin(&mut self, copy: Here, ended: Result<(), Jump>) -> Result<(), Jump>
        ensures { Works is_free self.old self.new result (rejoined copy ended) }
    {
        self.shell.status = copy.shell.status;
        self.add(copy.pieces)?;
        end_of(ended)
    }

    /// The output of a copy of the shell that has ended; what it wrote to other streams was written
    /// here. The error is what has no end. Steps for each byte of the output.
    pub fn overhear(
        &mut self,
        alloc: Global,
        copy: Here,
        ended: Result<(), Jump>,
    ) -> Result<Text, Jump>
        ensures { Works is_free self.old self.new result (overheard copy ended) }
    {
        let text = output_of(alloc, copy.pieces.items())?;
        self.add(rest_of(copy.pieces))?;
        end_of(ended)?;
        Ok(text)
    }

    /// Sets a variable of the shell. One that was exported stays so.
    pub fn assign(&mut self, alloc: Global, name: &[u8], text: Text) -> Result<(), Jump>
        ensures { Works is_free self.old self.new result (heres.assigned name.now text) }
    {
        let exported = is_exported(&self.shell.vars, name);
        set_variable(alloc, name, text, exported, &mut self.shell)?;
        Ok(())
    }

    /// What the fault of a word comes to. An unset name in `${name?word}` writes its line and ends
    /// the shell with status 1.
    pub fn fault(&mut self, fault: WordFault) -> Jump
        ensures { is_free result ≡ false → (result, self.new) ≡ faulted fault self.old }
    {
        match fault {
            WordFault::Unset(line) => self.fail(line),
            WordFault::Refused(construct) => Jump::End(ExecNo::Refused(construct)),
            WordFault::Spent => Jump::End(ExecNo::Spent),
            WordFault::NoMemory => Jump::End(ExecNo::NoMemory),
        }
    }

    /// Writes a line of error, and ends the shell with status 1.
    fn fail(&mut self, line: Text) -> Jump
        ensures { is_free result ≡ false → (result, self.new) ≡ failed line self.old }
    {
        if let Err(jump) = self.write(2, line) {
            return jump;
        }
        self.shell.status = 1;
        Jump::Exit
    }

    /// Writes these pieces behind the others.
    fn add(&mut self, pieces: Seq<Piece>) -> Result<(), NoMemory>
        ensures { OnOk result (self.new ≡ written pieces self.old) }
    {
        for piece in pieces.into_vec() {
            self.pieces.push(piece)?;
        }
        Ok(())
    }
}

/// A copy ends by itself alone: only what has no end has none around it.
fn end_of(ended: Result<(), Jump>) -> Result<(), Jump>
    ensures { result ≡ ended_as tt ended }
{
    match ended {
        Err(Jump::End(no)) => Err(Jump::End(no)),
        _ => Ok(()),
    }
}

/// What was written to stream 1.
fn output_of(alloc: Global, pieces: &[Piece]) -> Result<Text, NoMemory>
    ensures { IfOk result (λ t. t ≡ text_on 1 pieces.now) }
{
    let mut text = Text::new(alloc);
    for piece in pieces {
        if piece.stream == 1 {
            text.add(piece.text.bytes())?;
        }
    }
    Ok(text)
}

/// What was written to other streams.
fn rest_of(pieces: Seq<Piece>) -> Seq<Piece>
    ensures { result ≡ off 1 pieces }
{
    let mut all = pieces.into_vec();
    all.retain(|p| p.stream != 1);
    Seq::from_vec(all)
}

/// Whether the name has a variable that is exported.
fn is_exported(vars: &Vars, name: &[u8]) -> bool
    ensures { result ≡ is_exported (value_of vars.now name.now) }
{
    vars.get(name).is_some_and(|v| v.exported)
}

/// Gives the name a text, as the shell sets it.
pub(crate) fn set_variable(
    alloc: Global,
    name: &[u8],
    text: Text,
    exported: bool,
    shell: &mut Shell,
) -> Result<(), NoMemory>
    ensures { OnOk result (shell.new ≡ with_text name.now text exported shell.old) }
{
    let variable = Var {
        flavour: Flavour::Simple,
        origin: Origin::Automatic,
        text,
        exported,
    };
    shell.vars.set(Text::from_slice(alloc, name)?, variable)?;
    Ok(())
}
