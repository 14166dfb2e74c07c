//! The lock under which files of a folder are replaced.
use crate::stop::{Reason, Stop};
use std::fs::{File, TryLockError};
use std::rt::Clock;
use std::thread;
use std::time::Duration;

/// How often a lock is tried, and how long is waited in between, in milliseconds: some ten seconds
/// in all.
const TRIES: u64 = 1_000;

const PAUSE: u64 = 10;

/// An open file, or folder, that one program at a time may lock. It is unlocked when it is closed.
pub trait LockFile {
    /// Locks it, unless another program has: then the error is `WouldBlock`.
    fn try_lock(&self) -> Result<(), TryLockError>;
}

impl LockFile for File {
    fn try_lock(&self) -> Result<(), TryLockError> {
        File::try_lock(self)
    }
}

/// Locks the folder, and waits some ten seconds for other programs at most.
pub(crate) fn lock<R: Clock, F: LockFile>(rt: &R, folder: &F) -> Result<(), Stop> {
    for _ in 0..TRIES {
        match folder.try_lock() {
            Ok(()) => return Ok(()),
            Err(TryLockError::WouldBlock) => thread::sleep(rt, Duration::from_millis(PAUSE)),
            Err(TryLockError::Error(e)) => return Err(Stop::from(e)),
        }
    }
    Err(Stop::Because(Reason::Locked))
}
