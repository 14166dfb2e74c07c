//! The report of a build.
ghost use Rattle.std.specs.Prelude.{◌≡◌, IfOk};
ghost use Rattle.em_learning.specs.Telling as telling;

use em_base::{NoMemory, Seq};
use em_engine::{Cause, Note};
use em_plan::{PlanJob, SharedJob};
use em_report::{CauseWord, Report, ReportLine};
use std::alloc::Global;

/// What a report says of the cause.
fn word_for(cause: &Option<Cause>) -> CauseWord
    ensures { result ≡ telling.word_for cause.now }
{
    match cause {
        None => CauseWord::Clean,
        Some(Cause::Differ { .. }) => CauseWord::Differ,
        Some(Cause::Strange { .. }) => CauseWord::Strange,
        Some(Cause::Foreign) => CauseWord::Foreign,
        Some(Cause::WantOfMemory) => CauseWord::Memory,
    }
}

/// The line of one job.
fn line_of(
    alloc: Global,
    job: &PlanJob,
    waits: &Seq<u32>,
    note: &Note,
    fuel: u64,
) -> Result<ReportLine, NoMemory>
    ensures { IfOk result (λ l. l ≡ telling.line_of ((job.now, waits.now), (note.now, fuel))) }
{
    Ok(ReportLine {
        job: note.job,
        runs: note.runs,
        cause: word_for(&note.cause),
        fuel,
        target: job.target.copy(alloc)?,
        waits: Seq::from_vec(Vec::from_slice(alloc, waits.items())?),
    })
}

/// The report of a build: a line for each note, in order, with the target of its job, the jobs that
/// this waited for, and the fuel that its committed run took. Linear in the waits and in the
/// targets, which are copied.
pub fn report_of(
    alloc: Global,
    jobs: &[SharedJob],
    waits: &[Seq<u32>],
    notes: &[Note],
    fuel: &[u64],
    status: u8,
) -> Result<Report, NoMemory>
    ensures { IfOk result
        (λ r. r ≡ telling.report_of jobs.now waits.now notes.now fuel.now status) }
{
    let mut lines = Seq::new(alloc);
    for ((job, waits), (note, fuel)) in jobs.iter().zip(waits).zip(notes.iter().zip(fuel)) {
        lines.push(line_of(alloc, job.get(), waits, note, *fuel)?)?;
    }
    Ok(Report { lines, status })
}
