//! Why a call on the system's files or output failed.
ghost use Rattle.std.specs.Prelude.{◌≡◌, ◌↔◌, IsOk, IfErr};
ghost use Rattle.std.specs.IoError.{error_kind};
ghost use Rattle.std.specs.declared.io.ErrorKind.TheVariants.{Interrupted};
ghost use Rattle.em_host.specs.declared.stop.Stop.TheVariants as stop;
ghost use Rattle.em_host.specs.Reasons.{stop_of, found_of};

use em_base::{NoMemory, Text};
use std::alloc::{AllocError, AllocFailed, Global};
use std::io::{Error, ErrorKind};
use std::{io, str};

/// Why the system's files or output weren't as they were asked to be.
#[derive(Clone, Copy, Debug)]
pub enum Reason {
    /// The system answered this error.
    System(Error),
    /// The name isn't UTF-8.
    NotText,
    /// Something other than a regular file stands there: a directory, a device, a FIFO, a socket.
    NotRegular,
    /// It isn't the file any more that was taken.
    Changed,
    /// It is a file that was taken or replaced under another name.
    SameFile,
    /// Another program kept the folder locked.
    Locked,
    /// Reads or writes moved no byte, or needed too many turns.
    NoProgress,
    /// Every name for a new file is taken.
    NoFreeName,
}

impl Reason {
    /// The reason in words: the system's own where the system gave it.
    fn words(&self, alloc: Global) -> Result<String, NoMemory> {
        let words = match self {
            Reason::System(e) => return system_words(alloc, e),
            Reason::NotText => "the name is not UTF-8",
            Reason::NotRegular => "not a regular file",
            Reason::Changed => "changed meanwhile",
            Reason::SameFile => "the same file under two names",
            Reason::Locked => "its folder stays locked",
            Reason::NoProgress => "no byte was moved",
            Reason::NoFreeName => "no name is free for a new file",
        };
        Ok(String::from_str(alloc, words)?)
    }
}

/// What the system calls the error, without its number.
fn system_words(alloc: Global, e: &Error) -> Result<String, NoMemory> {
    let words = format!(in alloc; "{e}")?;
    match words.as_str().split_once(" (os error ") {
        Some((front, _)) => Ok(String::from_str(alloc, front)?),
        None => Ok(words),
    }
}

/// The name in one line: a control character by its escape, as Rust writes it (`\n`, `\u{7f}`).
fn in_one_line(alloc: Global, name: &str) -> Result<String, NoMemory> {
    let mut line = String::new(alloc);
    for c in name.chars() {
        if c.is_control() {
            line.push_str(format!(in alloc; "{}", c.escape_default())?.as_str())?;
        } else {
            line.push(c)?;
        }
    }
    Ok(line)
}

/// Why a part of a call broke off.
#[derive(Clone, Copy, Debug)]
pub(crate) enum Stop {
    Because(Reason),
    NoMemory,
}

impl From<Reason> for Stop {
    ghost from_gives = { λ reason s. s ≡ stop.Because reason };

    fn from(reason: Reason) -> Stop {
        Stop::Because(reason)
    }
}

impl From<AllocError> for Stop {
    ghost from_gives = { λ _ s. s ≡ stop.NoMemory };

    fn from(_e: AllocError) -> Stop {
        Stop::NoMemory
    }
}

impl<T: Drop> From<AllocFailed<T>> for Stop {
    ghost from_gives = { λ _ s. s ≡ stop.NoMemory };

    fn from(_e: AllocFailed<T>) -> Stop {
        Stop::NoMemory
    }
}

impl From<NoMemory> for Stop {
    ghost from_gives = { λ _ s. s ≡ stop.NoMemory };

    fn from(_e: NoMemory) -> Stop {
        Stop::NoMemory
    }
}

/// Want of memory in the system is want of memory.
impl From<Error> for Stop {
    ghost from_gives = { λ e s. s ≡ stop_of e };

    fn from(e: Error) -> Stop {
        match e.kind() {
            ErrorKind::OutOfMemory => Stop::NoMemory,
            _ => Stop::Because(Reason::System(e)),
        }
    }
}

/// What the system found, or None exactly where it says that there is nothing of the name.
pub(crate) fn found<T: Drop>(answer: io::Result<T>) -> Result<Option<T>, Stop>
    ensures { result ≡ found_of answer }
{
    match answer {
        Ok(it) => Ok(Some(it)),
        Err(e) => match e.kind() {
            ErrorKind::NotFound => Ok(None),
            _ => Err(Stop::from(e)),
        },
    }
}

/// Only a read or a write that a signal interrupted is tried again.
pub(crate) fn go_on_after(e: Error) -> Result<(), Stop>
    ensures again { IsOk result ↔ (error_kind e ≡ Interrupted) }
    ensures stop { IfErr result (λ s. s ≡ stop_of e) }
{
    match e.kind() {
        ErrorKind::Interrupted => Ok(()),
        _ => Err(Stop::from(e)),
    }
}

/// What failed, and why.
#[derive(Debug, Drop)]
pub struct Fault {
    /// The file, or None for standard output.
    pub(crate) name: Option<Text>,
    pub(crate) reason: Reason,
}

impl Fault {
    /// `NAME: REASON`, as a program says it, in one line: NAME is the file's, a control character
    /// by its escape, or `standard output`, and REASON is the system's where the system gave it.
    /// Linear in its length.
    pub fn words(&self, alloc: Global) -> Result<String, NoMemory> {
        let reason = self.reason.words(alloc)?;
        let name = match &self.name {
            None => "standard output",
            Some(name) => str::from_utf8(name.bytes()).unwrap_or("?"),
        };
        let name = in_one_line(alloc, name)?;
        Ok(format!(in alloc; "{name}: {reason}")?)
    }
}
