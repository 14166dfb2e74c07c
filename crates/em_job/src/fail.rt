//! A line that failed.
ghost use Rattle.std.specs.Prelude.{◌≡◌};
ghost use Rattle.em_job.specs.Stops.{is_free};
ghost use Rattle.em_job.specs.Carrying as carrying;
ghost use Rattle.em_job.specs.Preparing as preparing;
ghost use Rattle.em_recipe.specs.Messages as messages;
ghost use Rattle.em_view.specs.Steps.{Does, Works};

use crate::due::{is_phony, path_of, same_stamp};
use crate::stop::{JobStop, of_desk};
use em_base::{Place, Text};
use em_expand::Spoken;
use em_path::Path;
use em_recipe::{put_deleted, put_failed};
use em_task::Job;
use em_tree::{Kind, Outcome};
use em_view::{Desk, DeskNo, View};
use std::alloc::Global;

fn say_deleted(spoken: &mut Spoken, target: &[u8]) -> Result<(), JobStop>
    ensures { Works is_free spoken.old spoken.new result
        (preparing.say (messages.deleted target.now)) }
{
    put_deleted(&mut spoken.said, target)?;
    Ok(())
}

fn say_failed(spoken: &mut Spoken, job: &Job, place: &Place, status: u8) -> Result<(), JobStop>
    ensures { Works is_free spoken.old spoken.new result
        (preparing.say (messages.failed place.now job.now.plan.target status)) }
{
    put_failed(
        &mut spoken.said,
        place,
        job.plan.get().target.bytes(),
        status,
    )?;
    Ok(())
}

/// Removes a target, where that isn't refused.
fn remove<V: View>(
    alloc: Global,
    desk: &mut Desk<V>,
    spoken: &mut Spoken,
    target: &[u8],
    place: &Place,
    path: &Path,
) -> Result<(), JobStop>
    ensures { Does is_free V.tells desk.old desk.new spoken.old spoken.new result
        (carrying.remove_target target.now place.now path.now) }
{
    match desk.remove(path) {
        Ok(()) => say_deleted(spoken, target),
        Err(DeskNo::File(_)) => Ok(()),
        Err(DeskNo::Spent) => Err(of_desk(alloc, place, DeskNo::Spent)),
        Err(DeskNo::NoMemory) => Err(JobStop::NoMemory),
    }
}

/// Removes a target's file, where its stamp isn't the one from before the recipe.
fn remove_changed<V: View>(
    alloc: Global,
    desk: &mut Desk<V>,
    spoken: &mut Spoken,
    target: &[u8],
    before: Option<u64>,
    place: &Place,
    path: &Path,
) -> Result<(), JobStop>
    ensures { Does is_free V.tells desk.old desk.new spoken.old spoken.new result
        (carrying.remove_changed target.now before place.now path.now) }
{
    match desk.stamp(path) {
        Ok(now) => {
            if same_stamp(now, before) {
                return Ok(());
            }
            remove(alloc, desk, spoken, target, place, path)
        }
        Err(e) => Err(of_desk(alloc, place, e)),
    }
}

/// Removes a target, where it is a file that the recipe changed.
fn delete_at<V: View>(
    alloc: Global,
    desk: &mut Desk<V>,
    spoken: &mut Spoken,
    target: &[u8],
    before: Option<u64>,
    place: &Place,
    path: &Path,
) -> Result<(), JobStop>
    ensures { Does is_free V.tells desk.old desk.new spoken.old spoken.new result
        (carrying.delete_at target.now before place.now path.now) }
{
    match desk.kind(path) {
        Ok(Kind::File) => remove_changed(alloc, desk, spoken, target, before, place, path),
        Ok(Kind::Absent) => Ok(()),
        Ok(Kind::Dir) => Ok(()),
        Ok(Kind::Link) => Ok(()),
        Err(e) => Err(of_desk(alloc, place, e)),
    }
}

/// What becomes of a target of a job that failed. This was its stamp before the recipe.
fn delete_one<V: View>(
    alloc: Global,
    desk: &mut Desk<V>,
    spoken: &mut Spoken,
    job: &Job,
    place: &Place,
    target: &[u8],
    before: Option<u64>,
) -> Result<(), JobStop>
    ensures { Does is_free V.tells desk.old desk.new spoken.old spoken.new result
        (carrying.delete_one job.now place.now target.now before) }
{
    if is_phony(job, target) {
        return Ok(());
    }
    match path_of(alloc, &job.cwd, target)? {
        None => Ok(()),
        Some(path) => delete_at(alloc, desk, spoken, target, before, place, &path),
    }
}

/// What becomes of the targets of a job that failed, in order.
fn delete_each<V: View>(
    alloc: Global,
    desk: &mut Desk<V>,
    spoken: &mut Spoken,
    job: &Job,
    place: &Place,
    targets: &[Text],
    befores: &[Option<u64>],
) -> Result<(), JobStop>
    ensures { Does is_free V.tells desk.old desk.new spoken.old spoken.new result
        (carrying.delete_each job.now place.now targets.now befores.now) }
{
    for (target, before) in targets.iter().zip(befores) {
        delete_one(alloc, desk, spoken, job, place, target.bytes(), *before)?;
    }
    Ok(())
}

/// What becomes of the targets of a job that failed. These were their stamps before the recipe.
fn delete<V: View>(
    alloc: Global,
    desk: &mut Desk<V>,
    spoken: &mut Spoken,
    job: &Job,
    befores: &[Option<u64>],
    place: &Place,
) -> Result<(), JobStop>
    ensures { Does is_free V.tells desk.old desk.new spoken.old spoken.new result
        (carrying.delete job.now befores.now place.now) }
{
    if !job.delete_on_error {
        return Ok(());
    }
    let targets = job.plan.get().targets.items();
    delete_each(alloc, desk, spoken, job, place, targets, befores)
}

/// Ends a job by a line with this status.
pub(crate) fn fail<V: View>(
    alloc: Global,
    desk: &mut Desk<V>,
    spoken: &mut Spoken,
    job: &Job,
    befores: &[Option<u64>],
    place: &Place,
    status: u8,
) -> Result<Outcome, JobStop>
    ensures { Does is_free V.tells desk.old desk.new spoken.old spoken.new result
        (carrying.fail job.now befores.now place.now status) }
{
    say_failed(spoken, job, place, status)?;
    delete(alloc, desk, spoken, job, befores, place)?;
    Ok(Outcome::Failed(status))
}
