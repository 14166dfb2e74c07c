//! Whether a job remakes its targets.
ghost use Rattle.std.specs.Prelude.{◌≡◌, [], IfOk, OnOk};
ghost use Rattle.std.specs.List.{list_any};
ghost use Rattle.em_expand.specs.declared.spoken.Spoken.{Spoken};
ghost use Rattle.em_job.specs.Stops.{is_free};
ghost use Rattle.em_job.specs.Deciding as deciding;
ghost use Rattle.em_recipe.specs.Automatic as automatic;
ghost use Rattle.em_view.specs.Steps.{Does};

use crate::awaiting::Awaited;
use crate::stop::{JobStop, early};
use em_base::{NoMemory, Seq, Text};
use em_path::{Path, PathNo};
use em_plan::Pre;
use em_task::Job;
use em_tree::Outcome;
use em_view::{Desk, View};
use std::alloc::Global;

/// What becomes of a job.
pub(crate) enum JobDecision {
    Ended(Outcome),
    NoRule,
    Remake,
}

/// The path that a name says, if it says one.
pub(crate) fn path_of(alloc: Global, cwd: &Path, name: &[u8]) -> Result<Option<Path>, NoMemory>
    ensures { IfOk result (λ p. p ≡ deciding.path_of cwd.now name.now) }
{
    match Path::read(alloc, cwd, name) {
        Ok(path) => Ok(Some(path)),
        Err(PathNo::NoMemory) => Err(NoMemory),
        Err(_) => Ok(None),
    }
}

/// The stamp of what a name says; a name that is no path is absent and isn't asked.
pub(crate) fn stamp_of<V: View>(
    alloc: Global,
    desk: &mut Desk<V>,
    cwd: &Path,
    name: &[u8],
) -> Result<Option<u64>, JobStop>
    ensures { (s : Spoken) → Does is_free V.tells desk.old desk.new s s result
        (deciding.stamp_of cwd.now name.now) }
{
    match path_of(alloc, cwd, name)? {
        None => Ok(None),
        Some(path) => match desk.stamp(&path) {
            Ok(stamp) => Ok(stamp),
            Err(e) => Err(early(e)),
        },
    }
}

/// The stamps of what these names say, in order.
pub(crate) fn stamps_of<V: View>(
    alloc: Global,
    desk: &mut Desk<V>,
    cwd: &Path,
    names: &[Text],
) -> Result<Seq<Option<u64>>, JobStop>
    ensures { (s : Spoken) → Does is_free V.tells desk.old desk.new s s result
        (deciding.stamps_of cwd.now names.now []) }
{
    let mut stamps = Seq::new(alloc);
    for name in names {
        let stamp = stamp_of(alloc, desk, cwd, name.bytes())?;
        stamps.push(stamp)?;
    }
    Ok(stamps)
}

/// Whether two nodes, or absences, have one stamp.
pub(crate) fn same_stamp(a: Option<u64>, b: Option<u64>) -> bool
    ensures { result ≡ deciding.same_stamp a b }
{
    match (a, b) {
        (None, None) => true,
        (Some(a), Some(b)) => a == b,
        _ => false,
    }
}

/// Whether a target or a normal prerequisite is phony.
pub(crate) fn is_phony(job: &Job, name: &[u8]) -> bool
    ensures { result ≡ deciding.is_phony job.now name.now }
{
    job.phony.items().iter().any(|p| p.bytes() == name)
}

/// Whether a target is there, with a stamp below this one.
fn precedes(other: u64, own: Option<u64>) -> bool
    ensures { result ≡ deciding.precedes other own }
{
    match own {
        None => false,
        Some(own) => own < other,
    }
}

/// Whether one of the targets is there, with a stamp below this one.
fn is_one_before(owns: &[Option<u64>], other: u64) -> bool
    ensures { result ≡ list_any (deciding.precedes other) owns.now }
{
    owns.iter().any(|own| precedes(other, *own))
}

/// Whether a prerequisite is absent, or has a greater stamp than one of the targets.
fn is_later(owns: &[Option<u64>], other: Option<u64>) -> bool
    ensures { result ≡ deciding.is_later owns.now other }
{
    match other {
        None => true,
        Some(other) => is_one_before(owns, other),
    }
}

/// Whether a prerequisite makes remaking due.
fn is_newer(job: &Job, owns: &[Option<u64>], awaited: &Awaited, stamp: Option<u64>) -> bool
    ensures { result ≡ deciding.is_newer job.now owns.now awaited.now stamp }
{
    is_phony(job, awaited.name.bytes()) || awaited.renewed || is_later(owns, stamp)
}

/// Adds a prerequisite that makes remaking due.
fn put_newer(
    alloc: Global,
    newer: &mut Seq<Text>,
    awaited: &Awaited,
    is_newer: bool,
) -> Result<(), NoMemory>
    ensures { OnOk result (newer.new ≡ deciding.with_newer is_newer newer.old awaited.now.name) }
{
    if is_newer {
        newer.push(awaited.name.copy(alloc)?)?;
    }
    Ok(())
}

/// The normal prerequisites that make remaking due.
pub(crate) fn newer_among<V: View>(
    alloc: Global,
    desk: &mut Desk<V>,
    job: &Job,
    owns: &[Option<u64>],
    normal: &[Awaited],
) -> Result<Seq<Text>, JobStop>
    ensures { (s : Spoken) → Does is_free V.tells desk.old desk.new s s result
        (deciding.newer_among job.now owns.now normal.now []) }
{
    let mut newer = Seq::new(alloc);
    for awaited in normal {
        let stamp = stamp_of(alloc, desk, &job.cwd, awaited.name.bytes())?;
        put_newer(
            alloc,
            &mut newer,
            awaited,
            is_newer(job, owns, awaited, stamp),
        )?;
    }
    Ok(newer)
}

/// Whether one of the targets is absent.
fn is_one_absent(owns: &[Option<u64>]) -> bool
    ensures { result ≡ deciding.is_one_absent owns.now }
{
    owns.iter().any(|own| own.is_none())
}

/// Whether it is the job of a double-colon rule without normal prerequisites.
fn is_unbound(job: &Job) -> bool
    ensures { result ≡ deciding.is_unbound job.now }
{
    job.plan.get().double && job.plan.get().normal.is_empty()
}

fn is_due(job: &Job, owns: &[Option<u64>], newer: &[Text]) -> bool
    ensures { result ≡ deciding.is_due job.now owns.now newer.now }
{
    job.flags.always
        || job.plan.get().phony
        || is_one_absent(owns)
        || is_unbound(job)
        || !newer.is_empty()
}

/// The names of the prerequisites.
fn names_of(alloc: Global, pres: &[Pre]) -> Result<Seq<Text>, NoMemory>
    ensures { IfOk result (λ ns. ns ≡ automatic.names_of pres.now) }
{
    let mut names = Seq::new(alloc);
    for pre in pres {
        names.push(pre.name.copy(alloc)?)?;
    }
    Ok(names)
}

/// The names that made remaking due.
pub(crate) fn reasons(
    alloc: Global,
    job: &Job,
    owns: &[Option<u64>],
    newer: Seq<Text>,
) -> Result<Seq<Text>, NoMemory>
    ensures { IfOk result (λ ns. ns ≡ deciding.reasons job.now owns.now newer) }
{
    if job.flags.always || is_one_absent(owns) {
        return names_of(alloc, job.plan.get().normal.items());
    }
    Ok(newer)
}

/// What becomes of a job whose targets are neither phony nor have a rule.
fn unruled(is_one_absent: bool) -> JobDecision
    ensures { result ≡ deciding.unruled is_one_absent }
{
    if is_one_absent {
        JobDecision::NoRule
    } else {
        JobDecision::Ended(Outcome::Upto)
    }
}

/// What becomes of the job.
pub(crate) fn decision(job: &Job, owns: &[Option<u64>], newer: &[Text]) -> JobDecision
    ensures { result ≡ deciding.decision job.now owns.now newer.now }
{
    if !(job.plan.get().phony || job.plan.get().ruled) {
        return unruled(is_one_absent(owns));
    }
    let due = is_due(job, owns, newer);
    match &job.plan.get().recipe {
        None if due => JobDecision::Ended(Outcome::Counted),
        None => JobDecision::Ended(Outcome::Upto),
        Some(_) if !due => JobDecision::Ended(Outcome::Upto),
        Some(_) if job.flags.question => JobDecision::Ended(Outcome::Made),
        Some(_) => JobDecision::Remake,
    }
}
