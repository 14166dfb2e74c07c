//! The real outside: the system's files and standard output.
ghost use Rattle.std.specs.Prelude.{◌≡◌, ◌↔◌, ◌<◌, None, IsSome};
ghost use Rattle.em_host.specs.Faults.{count_after};
ghost use Rattle.em_host.specs.Reasons.{answer_of};

use crate::host::Host;
use crate::lock::LockFile;
use crate::moving::write_whole;
use crate::no::HostNo;
use crate::replacing::{replace_file, take_file};
use crate::seen::Seen;
use crate::stop::{Fault, Stop};
use em_base::Text;
use std::alloc::Global;
use std::io;
use std::marker::Model;
use std::rt::{Clock, Files};

/// The system's files, and standard output. Contracts see how many calls have failed.
///
/// A name is a path of the system, in UTF-8, and reaches regular files alone: what else stands
/// there is neither read nor replaced. Of a file 64 MiB and one byte are read at most. A symbolic
/// link is followed, and stays.
///
/// A file is replaced by a new file in the same folder that is brought to the disk and then renamed
/// over it, so the old one stands whole until the new one does. Then the system is told to bring
/// the folder to the disk too, so that after Ok a crash leaves the new one; where the system can't
/// do that for a folder, it may leave the old one. The new file has the permissions of the old one,
/// or those that the system gives to new files.
///
/// A file isn't replaced that was first taken or replaced under another name, nor one that changed
/// since it was last taken or replaced. That is looked at while the folder is locked, so of several
/// hosts at once none undoes what another did.
///
/// A call takes time linear in its bytes, besides what the system takes, and for files a search
/// through what was taken and left before; to replace one may wait for ten seconds.
#[derive(Drop)]
pub struct RealHost<R: Files> {
    rt: R,
    seen: Seen<R::File>,
    faults: u64,
    fault: Option<Fault>,
}

impl<R: Files> Model for RealHost<R> {
    ghost use Rattle.std.specs.Prelude.{◌≡◌, ℕ, nat_lt};
    ghost use Rattle.std.specs.Option.{is_some};

    ghost Value = { ℕ };

    ghost view = { λ h. h.faults };

    ghost invariant = { λ h. is_some h.fault ≡ nat_lt 0 h.faults };
}

impl<R: Files> RealHost<R> {
    /// The outside that this runtime reaches, of which no call has failed.
    pub fn new(alloc: Global, rt: R) -> RealHost<R>
        ensures { result ≡ 0 }
    {
        RealHost {
            rt,
            seen: Seen::new(alloc),
            faults: 0,
            fault: None,
        }
    }

    /// What failed last, where a call has failed.
    pub fn fault(&self) -> Option<&Fault>
        ensures { IsSome result ↔ (0 < self.now) }
    {
        self.fault.as_ref()
    }

    /// Keeps what failed, if anything did: the file of this name, or standard output.
    fn settle<T>(&mut self, name: Option<Text>, answer: Result<T, Stop>) -> Result<T, HostNo>
        ensures answer { result ≡ answer_of answer }
        ensures count { self.new ≡ count_after result self.old }
    {
        match answer {
            Ok(it) => Ok(it),
            Err(Stop::NoMemory) => Err(HostNo::NoMemory),
            Err(Stop::Because(reason)) => {
                self.faults = self.faults.saturating_add(1);
                self.fault = Some(Fault { name, reason });
                Err(HostNo::Failed)
            }
        }
    }
}

/// Nothing is told of what files hold or what was printed.
impl<R: Files + Clock + Print + Drop + Send> Host for RealHost<R>
where
    R::File: LockFile + Send,
{
    ghost told = { λ _. None };

    ghost faults = { λ faults. faults };

    fn take(&mut self, alloc: Global, name: &[u8]) -> Result<Option<Vec<u8>>, HostNo> {
        let own = Text::from_slice(alloc, name)?;
        let answer = take_file(&self.rt, alloc, &mut self.seen, name);
        self.settle(Some(own), answer)
    }

    fn replace(&mut self, alloc: Global, name: &[u8], bytes: &[u8]) -> Result<(), HostNo> {
        let own = Text::from_slice(alloc, name)?;
        let answer = replace_file(&self.rt, alloc, &mut self.seen, name, bytes);
        self.settle(Some(own), answer)
    }

    fn print(&mut self, bytes: &[u8]) -> Result<(), HostNo> {
        let answer = write_whole(&mut io::writer(&self.rt), bytes);
        self.settle(None, answer)
    }
}
