//! The system's files, watched: when what was done, and one kind of call that fails.
use em_host::LockFile;
use std::alloc::Allocator;
use std::fmt::Display;
use std::fs::{File, Metadata, OpenFile, OpenOptions, Permissions, TryLockError};
use std::io;
use std::io::{Error, ErrorKind, Read, Seek, SeekFrom, Write};
use std::path::PathBuf;
use std::rt::{Clock, Files};
use std::sync::atomic::{AtomicU64, Ordering};
use std::time::Duration;

/// Which calls fail.
#[derive(Clone, Copy, PartialEq, Eq)]
pub(crate) enum Failing {
    Nothing,
    /// Each write behind the first.
    Write,
    Sync,
    Rename,
    /// The folder stays locked.
    Lock,
}

/// At which step each was done last, 0 where it wasn't.
#[derive(Drop)]
pub(crate) struct Watch {
    pub(crate) steps: AtomicU64,
    pub(crate) wrote: AtomicU64,
    pub(crate) synced: AtomicU64,
    pub(crate) locked: AtomicU64,
    pub(crate) renamed: AtomicU64,
    pub(crate) folder_synced: AtomicU64,
}

impl Watch {
    pub(crate) fn new() -> Watch {
        Watch {
            steps: AtomicU64::new(0),
            wrote: AtomicU64::new(0),
            synced: AtomicU64::new(0),
            locked: AtomicU64::new(0),
            renamed: AtomicU64::new(0),
            folder_synced: AtomicU64::new(0),
        }
    }

    /// Whether all were done, each behind the one before.
    pub(crate) fn is_in_order(&self) -> bool {
        let mut last = 0;
        for at in [
            &self.wrote,
            &self.synced,
            &self.locked,
            &self.renamed,
            &self.folder_synced,
        ] {
            let at = at.load(Ordering::SeqCst);
            if at <= last {
                return false;
            }
            last = at;
        }
        true
    }

    fn note(&self, done: &AtomicU64) {
        let before = self.steps.fetch_add(1, Ordering::SeqCst);
        done.store(before.saturating_add(1), Ordering::SeqCst);
    }
}

/// The system's files over a runtime, where this path is the folder's.
#[derive(Drop)]
pub(crate) struct Watched<'a, R> {
    pub(crate) rt: R,
    pub(crate) watch: &'a Watch,
    pub(crate) failing: Failing,
    pub(crate) folder: &'static str,
}

/// An open file of these, which takes three bytes a write.
#[derive(Drop)]
pub(crate) struct WatchedFile<'a> {
    file: File,
    watch: &'a Watch,
    failing: Failing,
    is_folder: bool,
}

fn refused() -> Error {
    Error::from(ErrorKind::StorageFull)
}

impl<'a, R: Files<File = File>> Files for Watched<'a, R> {
    type File = WatchedFile<'a>;

    type Dir = R::Dir;

    fn open_file(&self, how: &OpenOptions, path: &str) -> io::Result<WatchedFile<'a>> {
        Ok(WatchedFile {
            file: self.rt.open_file(how, path)?,
            watch: self.watch,
            failing: self.failing,
            is_folder: path == self.folder,
        })
    }

    fn open_dir(&self, path: &str) -> io::Result<R::Dir> {
        self.rt.open_dir(path)
    }

    fn metadata(&self, path: &str) -> io::Result<Metadata> {
        self.rt.metadata(path)
    }

    fn symlink_metadata(&self, path: &str) -> io::Result<Metadata> {
        self.rt.symlink_metadata(path)
    }

    fn copy(&self, from: &str, to: &str) -> io::Result<u64> {
        self.rt.copy(from, to)
    }

    fn rename(&self, from: &str, to: &str) -> io::Result<()> {
        if self.failing == Failing::Rename {
            return Err(refused());
        }
        self.watch.note(&self.watch.renamed);
        self.rt.rename(from, to)
    }

    fn remove_file(&self, path: &str) -> io::Result<()> {
        self.rt.remove_file(path)
    }

    fn create_dir(&self, path: &str) -> io::Result<()> {
        self.rt.create_dir(path)
    }

    fn remove_dir(&self, path: &str) -> io::Result<()> {
        self.rt.remove_dir(path)
    }

    fn remove_dir_all<B: Allocator>(&self, alloc: B, path: &str) -> io::Result<()> {
        self.rt.remove_dir_all(alloc, path)
    }

    fn canonicalize<B: Allocator>(&self, alloc: B, path: &str) -> io::Result<PathBuf<B>> {
        self.rt.canonicalize(alloc, path)
    }
}

impl<'a, R: Print> Print for Watched<'a, R> {
    fn print<D: Display + Drop>(&self, value: D) -> io::Result<()> {
        self.rt.print(value)
    }

    fn println<D: Display + Drop>(&self, value: D) -> io::Result<()> {
        self.rt.println(value)
    }

    fn write_all(&self, bytes: &[u8]) -> io::Result<()> {
        self.rt.write_all(bytes)
    }
}

/// No sleep takes time here.
impl<'a, R: Clock> Clock for Watched<'a, R> {
    fn monotonic(&self) -> io::Result<Duration> {
        self.rt.monotonic()
    }

    fn since_1970(&self) -> io::Result<Duration> {
        self.rt.since_1970()
    }
}

impl<'a> Read for WatchedFile<'a> {
    fn read(&mut self, buf: &mut [u8]) -> io::Result<usize> {
        self.file.read(buf)
    }
}

impl<'a> Write for WatchedFile<'a> {
    fn write(&mut self, buf: &[u8]) -> io::Result<usize> {
        if self.failing == Failing::Write && self.watch.wrote.load(Ordering::SeqCst) > 0 {
            return Err(refused());
        }
        self.watch.note(&self.watch.wrote);
        let most = buf.len().min(3);
        self.file.write(&buf[..most])
    }

    fn flush(&mut self) -> io::Result<()> {
        Ok(())
    }
}

impl<'a> Seek for WatchedFile<'a> {
    fn seek(&mut self, to: SeekFrom) -> io::Result<u64> {
        self.file.seek(to)
    }
}

impl<'a> OpenFile for WatchedFile<'a> {
    fn metadata(&self) -> io::Result<Metadata> {
        self.file.metadata()
    }

    fn set_len(&self, size: u64) -> io::Result<()> {
        self.file.set_len(size)
    }

    fn sync_all(&self) -> io::Result<()> {
        if self.failing == Failing::Sync {
            return Err(refused());
        }
        if self.is_folder {
            self.watch.note(&self.watch.folder_synced);
        } else {
            self.watch.note(&self.watch.synced);
        }
        self.file.sync_all()
    }

    fn sync_data(&self) -> io::Result<()> {
        self.file.sync_data()
    }

    fn set_permissions(&self, permissions: Permissions) -> io::Result<()> {
        self.file.set_permissions(permissions)
    }
}

impl<'a> LockFile for WatchedFile<'a> {
    fn try_lock(&self) -> Result<(), TryLockError> {
        if self.failing == Failing::Lock || !self.is_folder {
            return Err(TryLockError::WouldBlock);
        }
        self.watch.note(&self.watch.locked);
        self.file.try_lock()
    }
}
