//! A slow walk over all posts, which each question goes through from end to end.
use super::*;

/// The paths that jobs are asked of, each with its name.
static PATHS: [(&str, &str); 3] = [("/d", "d,"), ("/x", "x,"), ("/z", "z,")];

/// What the job has posted by these calls; nothing where that was withdrawn.
fn posted(done: &[PostCall], job: u32) -> &'static [StampRow] {
    let mut found: &'static [StampRow] = &[];
    for step in done {
        match step {
            Post(by, changes) | Upto(by, changes) => {
                if *by == job {
                    found = changes;
                }
            }
            Withdraw(by) => {
                if *by == job {
                    found = &[];
                }
            }
            _ => {}
        }
    }
    found
}

/// The stamp at a path under these changes, where it was another one.
fn changed(changes: &[StampRow], text: &str, before: u64) -> u64 {
    for (at, stamp) in changes {
        if *at == text {
            return *stamp;
        }
    }
    before
}

/// The stamp at a path other than the root under the posts of the jobs below one.
fn stamp_at(done: &[PostCall], job: u32, text: &str) -> u64 {
    let mut stamp = 0;
    for below in 0..job {
        stamp = changed(posted(done, below), text, stamp);
    }
    stamp
}

fn show_stamp(log: &mut String, stamp: u64) -> Result<(), AllocError> {
    if stamp == 0 {
        return log.push_str("-");
    }
    write!(log, "{stamp}")
}

fn slow_stamps(done: &[PostCall], job: u32, log: &mut String) -> Result<(), AllocError> {
    for (text, _) in &PATHS {
        show_stamp(log, stamp_at(done, job, text))?;
        log.push_str(" ")?;
    }
    Ok(())
}

fn slow_names(done: &[PostCall], job: u32, log: &mut String) -> Result<(), AllocError> {
    for (text, name) in &PATHS {
        if stamp_at(done, job, text) != 0 {
            log.push_str(name)?;
        }
    }
    Ok(())
}

/// What the jobs from this one to 9 are told by the walk: the stamps at the three paths, and the
/// root's names.
fn slow_log(alloc: Global, done: &[PostCall], from: u32) -> Result<String, NoMemory> {
    let mut log = String::new(alloc);
    for job in from..10 {
        slow_stamps(done, job, &mut log)?;
        slow_names(done, job, &mut log)?;
    }
    Ok(log)
}

fn fast_stamps(alloc: Global, v: &Versions, job: u32, log: &mut String) -> Result<(), NoMemory> {
    for (text, _) in &PATHS {
        see_one(alloc, v, job, 1, text, log)?;
        log.push_str(" ")?;
    }
    Ok(())
}

/// What they are told by the versions.
fn fast_log(alloc: Global, v: &Versions) -> Result<String, NoMemory> {
    let mut log = String::new(alloc);
    for job in v.floor()..10 {
        fast_stamps(alloc, v, job, &mut log)?;
        see_one(alloc, v, job, 3, "/", &mut log)?;
    }
    Ok(log)
}

/// Whether both say the same.
pub(super) fn show(
    alloc: Global,
    v: &Versions,
    done: &[PostCall],
    log: &mut String,
) -> Result<(), NoMemory> {
    let slow = slow_log(alloc, done, v.floor())?;
    let fast = fast_log(alloc, v)?;
    let is_same = fast.as_str() == slow.as_str();
    Ok(log.push_str(if is_same { "same " } else { "other " })?)
}
