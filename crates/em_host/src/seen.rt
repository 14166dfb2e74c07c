//! Which files stood under which names.
ghost use Rattle.std.specs.Prelude.{◌<◌, IfSome, vec_len};

use crate::stop::{Reason, Stop};
use em_base::Text;
use std::alloc::Global;
use std::fs::Metadata;
use std::os::unix::fs::MetadataExt;

/// Which file it is, and when it was last changed.
#[derive(Clone, Copy, Debug, PartialEq, Eq)]
pub(crate) struct Stamp {
    device: u64,
    inode: u64,
    seconds: i64,
    nanoseconds: i64,
}

impl Stamp {
    pub(crate) fn of(found: &Metadata) -> Stamp {
        Stamp {
            device: found.dev(),
            inode: found.ino(),
            seconds: found.ctime(),
            nanoseconds: found.ctime_nsec(),
        }
    }

    fn is_same_file(&self, other: &Stamp) -> bool {
        self.device == other.device && self.inode == other.inode
    }
}

/// What a host took or left under a name.
#[derive(Drop)]
struct Entry<F> {
    name: Text,
    /// None where there was no file.
    stamp: Option<Stamp>,
    /// The file, kept open where it was taken, so that its inode's number isn't given to another.
    held: Option<F>,
}

/// What a host took or left, under each name, in order.
#[derive(Drop)]
pub(crate) struct Seen<F> {
    entries: Vec<Entry<F>>,
}

impl<F: Drop> Seen<F> {
    pub(crate) fn new(alloc: Global) -> Seen<F> {
        Seen {
            entries: Vec::new(alloc),
        }
    }

    /// Makes room for one entry more.
    pub(crate) fn reserve(&mut self) -> Result<(), Stop> {
        Ok(self.entries.reserve(1)?)
    }

    /// Notes what stands under the name now.
    pub(crate) fn note(&mut self, name: Text, stamp: Option<Stamp>, held: Option<F>) {
        match self.last_under(name.bytes()) {
            Some(at) if is_one_file(self.entries[at].stamp, stamp) => {
                self.entries[at].stamp = stamp;
                self.entries[at].held = held;
            }
            _ => {
                let _ = self.entries.push(Entry { name, stamp, held });
            }
        }
    }

    /// Forgets that this file stood under the name, or that none did.
    pub(crate) fn forget(&mut self, name: &[u8], stamp: Option<Stamp>) {
        self.entries.retain(|entry| !(entry.name.bytes() == name
            && is_one_file(entry.stamp, stamp)));
    }

    /// That what stands under the name now may be replaced: where it was taken or replaced, then
    /// first under this name, and it is what was last taken or left under this name, if anything
    /// was. Two searches through the entries.
    pub(crate) fn check(&self, name: &[u8], now: Option<Stamp>) -> Result<(), Reason> {
        if let Some(first) = now.and_then(|now| self.first_name_of(&now)) {
            if first != name {
                return Err(Reason::SameFile);
            }
        }
        match self.last_under(name) {
            Some(at) if self.entries[at].stamp != now => Err(Reason::Changed),
            _ => Ok(()),
        }
    }

    /// The name under which the file was first taken or replaced.
    fn first_name_of(&self, file: &Stamp) -> Option<&[u8]> {
        for entry in self.entries.as_slice() {
            if entry.stamp.is_some_and(|stamp| stamp.is_same_file(file)) {
                return Some(entry.name.bytes());
            }
        }
        None
    }

    /// Where the last entry of the name stands.
    fn last_under(&self, name: &[u8]) -> Option<usize>
        ensures { IfSome result (λ at. at < vec_len self.now.entries) }
    {
        for at in (0..self.entries.len()).rev() {
            if self.entries[at].name.bytes() == name {
                return Some(at);
            }
        }
        None
    }
}

/// Whether both are one file, or both are none.
fn is_one_file(a: Option<Stamp>, b: Option<Stamp>) -> bool {
    match (a, b) {
        (Some(a), Some(b)) => a.is_same_file(&b),
        (None, None) => true,
        _ => false,
    }
}
