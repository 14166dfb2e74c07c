//! Why a job goes no further.
ghost use Rattle.std.specs.Prelude.{◌≡◌, ◌++◌, false, OnOk};
ghost use Rattle.em_job.specs.declared.stop.JobStop.TheVariants.{Refused, Halted, NoMemory as OutOfMemory};
ghost use Rattle.em_recipe.specs.Messages as messages;
ghost use Rattle.em_view.specs.declared.no.DeskNo.TheVariants as desk;
ghost use Rattle.em_job.specs.Stops as stops;
ghost use Rattle.em_job.specs.Stops.{is_free};

use em_base::{Construct, NoMemory, Place, Text};
use em_expand::ExpandNo;
use em_recipe::{fault_text, put_halted, put_refused, put_spent, put_spent_early};
use em_tree::Outcome;
use em_view::{DeskNo, ExecNo};
use std::alloc::{AllocError, AllocFailed, Global};

/// Why a job goes no further. What it has changed and said stands.
#[derive(Drop)]
pub enum JobStop {
    /// Fuel was spent before a line was begun.
    Early,
    /// Fuel was spent in this line.
    Spent(Place),
    /// The line has a construct that isn't supported.
    Refused(Construct, Place),
    /// The line can't be expanded.
    Halted(Text, Place),
    NoMemory,
}

impl From<NoMemory> for JobStop {
    ghost from_gives = { λ _ e. e ≡ OutOfMemory };

    fn from(_e: NoMemory) -> JobStop {
        JobStop::NoMemory
    }
}

impl From<AllocError> for JobStop {
    ghost from_gives = { λ _ e. e ≡ OutOfMemory };

    fn from(_e: AllocError) -> JobStop {
        JobStop::NoMemory
    }
}

impl<T: Drop> From<AllocFailed<T>> for JobStop {
    ghost from_gives = { λ _ e. e ≡ OutOfMemory };

    fn from(_e: AllocFailed<T>) -> JobStop {
        JobStop::NoMemory
    }
}

/// A desk's refusal before a line.
pub(crate) fn early(e: DeskNo) -> JobStop
    ensures { result ≡ stops.early e }
{
    match e {
        DeskNo::NoMemory => JobStop::NoMemory,
        DeskNo::Spent | DeskNo::File(_) => JobStop::Early,
    }
}

/// Fuel was spent in a line.
fn spent(alloc: Global, place: &Place) -> JobStop
    ensures { is_free result ≡ false → result ≡ stops.of_desk place.now desk.Spent }
{
    match place.copy(alloc) {
        Ok(place) => JobStop::Spent(place),
        Err(_) => JobStop::NoMemory,
    }
}

/// A desk's refusal at the line of this place: `Spent` there, whatever it refused, or `NoMemory`.
/// `NoMemory` may come freely; else the place is copied.
pub fn of_desk(alloc: Global, place: &Place, e: DeskNo) -> JobStop
    ensures { is_free result ≡ false → result ≡ stops.of_desk place.now e }
{
    match e {
        DeskNo::NoMemory => JobStop::NoMemory,
        DeskNo::Spent | DeskNo::File(_) => spent(alloc, place),
    }
}

/// A construct in the line of this place isn't supported. `NoMemory` may come freely; else the
/// place is copied.
pub fn refused(alloc: Global, place: &Place, construct: Construct) -> JobStop
    ensures { is_free result ≡ false → result ≡ Refused construct place.now }
{
    match place.copy(alloc) {
        Ok(place) => JobStop::Refused(construct, place),
        Err(_) => JobStop::NoMemory,
    }
}

/// A text in a line can't be expanded.
fn halted(alloc: Global, place: &Place, e: &ExpandNo) -> JobStop
    ensures { is_free result ≡ false → result ≡ Halted (messages.fault_text e.now) place.now }
{
    let Ok(text) = fault_text(alloc, e) else {
        return JobStop::NoMemory;
    };
    match place.copy(alloc) {
        Ok(place) => JobStop::Halted(text, place),
        Err(_) => JobStop::NoMemory,
    }
}

/// Why a text in a line has no expansion.
pub(crate) fn of_expand(alloc: Global, place: &Place, e: ExpandNo) -> JobStop
    ensures { is_free result ≡ false → result ≡ stops.of_expand place.now e }
{
    match e {
        ExpandNo::NoMemory => JobStop::NoMemory,
        ExpandNo::Spent => spent(alloc, place),
        ExpandNo::Refused(name) => refused(alloc, place, Construct::MakeName(name)),
        e => halted(alloc, place, &e),
    }
}

/// Why the line of this place has no status: its fuel was spent, or a construct in it isn't
/// supported. `NoMemory` may come freely; else the place is copied.
pub fn of_line(alloc: Global, place: &Place, e: ExecNo) -> JobStop
    ensures { is_free result ≡ false → result ≡ stops.of_line place.now e }
{
    match e {
        ExecNo::NoMemory => JobStop::NoMemory,
        ExecNo::Spent => spent(alloc, place),
        ExecNo::Refused(construct) => refused(alloc, place, construct),
    }
}

/// Appends to `out` the line that says why the job of this target stopped; nothing for `NoMemory`.
/// Its error is want of memory, and may come freely; a part of the line may then stand in `out`. A
/// step for each byte of the line.
pub fn put_stop(out: &mut Text, target: &[u8], stop: &JobStop) -> Result<(), NoMemory>
    ensures { OnOk result (out.new ≡ out.old ++ stops.stop_text target.now stop.now) }
{
    match stop {
        JobStop::Early => put_spent_early(out, target),
        JobStop::Spent(place) => put_spent(out, place, target),
        JobStop::Refused(construct, place) => put_refused(out, place, target, construct),
        JobStop::Halted(text, place) => put_halted(out, place, text.bytes()),
        JobStop::NoMemory => Ok(()),
    }
}

/// How a job ends that stopped so. It takes no memory, and one step; nothing is copied. Want of
/// memory, which is no end of a job, is read as spent fuel.
pub fn end_of(stop: JobStop) -> Outcome
    ensures { result ≡ stops.end_of stop }
{
    match stop {
        JobStop::Refused(construct, place) => Outcome::Refused { construct, place },
        JobStop::Halted(text, place) => Outcome::Halted { text, place },
        JobStop::Early | JobStop::Spent(_) | JobStop::NoMemory => Outcome::Spent,
    }
}
