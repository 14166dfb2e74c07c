//! Files of the system, taken and replaced.
ghost use Rattle.std.specs.Prelude.{OnOk};
ghost use Rattle.std.specs.Io.KnownBytes.{Appends};

use crate::lock::{LockFile, lock};
use crate::moving::{MOST_BYTES, read_whole, write_whole};
use crate::seen::{Seen, Stamp};
use crate::stop::{Reason, Stop, found};
use em_base::Text;
use std::alloc::Global;
use std::fs::{Metadata, OpenFile, OpenOptions, Permissions};
use std::io::{ErrorKind, Write};
use std::os::unix::fs::{MetadataExt, OpenOptionsExt};
use std::path::{Path, PathBuf};
use std::rt::{Clock, Files};
use std::{fs, str};

/// How many names are tried for a new file. Those of files that earlier runs left are passed over.
const MOST_NAMES: u32 = 1_000_000;

/// The name as a path.
fn path_of(name: &[u8]) -> Result<&str, Stop> {
    str::from_utf8(name).map_err(|_| Stop::Because(Reason::NotText))
}

/// What was found, where it is a regular file.
fn regular(found: Metadata) -> Result<Metadata, Stop> {
    if found.is_file() {
        Ok(found)
    } else {
        Err(Stop::Because(Reason::NotRegular))
    }
}

/// The bytes of a regular file, no more than `MOST_BYTES`, or None where the system says that there
/// is no such file.
///
/// What is seen to be no regular file isn't opened, since that could wait, as for a FIFO's other
/// end; a FIFO that takes the file's place between the look and the opening may still wait.
pub(crate) fn take_file<R: Files>(
    rt: &R,
    alloc: Global,
    seen: &mut Seen<R::File>,
    name: &[u8],
) -> Result<Option<Vec<u8>>, Stop> {
    let path = path_of(name)?;
    let own = Text::from_slice(alloc, name)?;
    seen.reserve()?;
    let opened = match found(fs::metadata(rt, path))? {
        Some(there) => {
            regular(there)?;
            found(fs::open(rt, path))?
        }
        None => None,
    };
    let Some(mut file) = opened else {
        seen.note(own, None, None);
        return Ok(None);
    };
    let there = regular(file.metadata()?)?;
    let room = there.len().min(MOST_BYTES as u64) as usize;
    let bytes = read_whole(alloc, &mut file, room)?;
    seen.note(own, Some(Stamp::of(&there)), Some(file));
    Ok(Some(bytes))
}

/// Makes the file these bytes, by a new file beside it and a rename.
///
/// What stands there is tested, and the new file renamed, while the folder is locked: of several
/// programs that do so one comes after the other, and sees what those before it left. That on Err
/// the file is as before and no other one was touched rests on the system's rename and isn't
/// proved.
pub(crate) fn replace_file<R: Files + Clock>(
    rt: &R,
    alloc: Global,
    seen: &mut Seen<R::File>,
    name: &[u8],
    bytes: &[u8],
) -> Result<(), Stop>
where
    R::File: LockFile,
{
    let own = Text::from_slice(alloc, name)?;
    seen.reserve()?;
    let path = path_of(name)?;
    let target = led_to(rt, alloc, path)?;
    let path = target.as_path().as_str();
    // Opened first: where the folder can't be, nothing is done.
    let folder = fs::open(rt, folder_of(path))?;
    let old = standing(rt, path)?;
    let (mut file, new) = create_beside(rt, alloc, path, old.is_some())?;
    let filled = fill(&mut file, bytes, old.as_ref().map(|old| old.permissions()));
    let moved = filled.and_then(|()| {
        lock(rt, &folder)?;
        let now = standing(rt, path)?;
        if now.is_some() != old.is_some() {
            return Err(Stop::Because(Reason::Changed));
        }
        seen.check(name, now.as_ref().map(Stamp::of))?;
        fs::rename(rt, new.as_path(), path)?;
        Ok(now)
    });
    if moved.is_err() {
        // Nothing more can be done about a new file that can't be removed either.
        let _ = fs::remove_file(rt, new.as_path());
    }
    let replaced = moved?;
    // The file is replaced, and stays so whether or not the system brings its folder to the disk
    // now.
    let _ = folder.sync_all();
    match replaced {
        // The old file stands on under another name.
        Some(old) if old.nlink() > 1 => {}
        gone => seen.forget(name, gone.as_ref().map(Stamp::of)),
    }
    let left = file.metadata().ok().as_ref().map(Stamp::of);
    seen.note(own, left, None);
    Ok(())
}

/// The path of the file that the system reaches by this path: that to which a symbolic link leads,
/// else itself.
fn led_to<R: Files>(rt: &R, alloc: Global, path: &str) -> Result<PathBuf, Stop> {
    match found(fs::symlink_metadata(rt, path))? {
        Some(there) if there.is_symlink() => Ok(rt.canonicalize(alloc, path)?),
        _ => Ok(PathBuf::from_str(alloc, path)?),
    }
}

/// The regular file that stands at this path, or None where nothing does.
fn standing<R: Files>(rt: &R, path: &str) -> Result<Option<Metadata>, Stop> {
    match found(fs::symlink_metadata(rt, path))? {
        Some(there) => Ok(Some(regular(there)?)),
        None => Ok(None),
    }
}

/// The folder in which the last name of this path stands.
fn folder_of(path: &str) -> &str {
    match Path::new(path).parent() {
        Some(folder) if !folder.as_str().is_empty() => folder.as_str(),
        _ => ".",
    }
}

/// A new file in the folder of this path, with its own path. No file that is there is touched.
/// Where it is to replace one, nobody else may read it until it has that one's permissions.
fn create_beside<R: Files>(
    rt: &R,
    alloc: Global,
    path: &str,
    replaces: bool,
) -> Result<(R::File, PathBuf), Stop> {
    let mut options = OpenOptions::new();
    options.write(true).create_new(true);
    if replaces {
        options.mode(0o600);
    }
    for number in 0..MOST_NAMES {
        let name = format!(in alloc; ".emake-new-{number}")?;
        let new = Path::new(path).with_file_name(alloc, name.as_str())?;
        match options.open(rt, new.as_path()) {
            Ok(file) => return Ok((file, new)),
            Err(e) => {
                if e.kind() != ErrorKind::AlreadyExists {
                    return Err(Stop::from(e));
                }
            }
        }
    }
    Err(Stop::Because(Reason::NoFreeName))
}

/// Writes the bytes to a new file, gives it the permissions, where there are any to give, and sees
/// it brought to the disk.
fn fill<F: Write + OpenFile>(
    file: &mut F,
    bytes: &[u8],
    permissions: Option<Permissions>,
) -> Result<(), Stop>
    ensures { OnOk result (Appends (F.contents file.old) (F.contents file.new) bytes.now) }
{
    write_whole(file, bytes)?;
    if let Some(permissions) = permissions {
        file.set_permissions(permissions)?;
    }
    file.sync_all()?;
    Ok(())
}
