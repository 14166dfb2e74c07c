//! List scheduling of a report's jobs.
ghost use Rattle.std.specs.Prelude.{◌≡◌, ◌⊎◌, ◌<◌, ◌≤◌, ◌^◌, length, None, Some, IfOk, IfErr};
ghost use Rattle.em_insight.specs.Each.{Each};
ghost use Rattle.em_insight.specs.Jobs.{refusal};
ghost use Rattle.em_insight.specs.Schedules.{IsGreedy, end_of};
ghost use Rattle.em_insight.specs.Schedules as schedules;
ghost use Rattle.em_insight.specs.Found.{slots_of};

use crate::check::check;
use crate::data::{Schedule, Slot};
use crate::dispatch::Dispatch;
use crate::no::InsightNo;
use em_base::Seq;
use em_report::{Report, ReportLine};
use std::alloc::Global;

/// The moment at which the last slot ends.
fn last_end(lines: &[ReportLine], slots: &[Slot]) -> u64
    requires { Each (λ s. (s.job < length lines.now) × (end_of lines.now s ≤ 2 ^ 62)) slots.now }
    ensures { result ≡ schedules.span lines.now slots.now }
{
    let mut last: u64 = 0;
    for slot in slots {
        last = last.max(slot.start + lines[slot.job as usize].fuel);
    }
    last
}

/// The schedule that list scheduling (Graham) gives so many agents: at the least moment at which a
/// job that hasn't started has all its waits ended and an agent is free, the least such job starts
/// on the least free agent; and so on, until all have started. A job takes its units of fuel. The
/// errors are those of `InsightNo`. Takes steps for the jobs and their waits, times the logarithm
/// of how many jobs there are, and for each job once for the agents.
pub fn schedule(alloc: Global, report: &Report, agents: u32) -> Result<Schedule, InsightNo>
    requires some { 1 ≤ agents }
    requires few { agents ≤ 64 }
    ensures ok { IfOk result (λ s. refusal report.now.lines ≡ None) }
    ensures greedy { IfOk result (λ s. IsGreedy report.now.lines agents s.slots) }
    ensures slots { IfOk result (λ s. s.slots ≡ slots_of report.now.lines agents) }
    ensures span { IfOk result (λ s. s.span ≡ schedules.span report.now.lines s.slots) }
    ensures err { IfErr result (λ e. (e ≡ InsightNo.NoMemory) ⊎ (refusal report.now.lines ≡ Some e)) }
{
    let lines = report.lines.items();
    check(lines)?;
    let mut dispatch = Dispatch::new(alloc, lines, agents)?;
    while dispatch.step(alloc)? {}
    let Dispatch { slots, .. } = dispatch;
    let span = last_end(lines, &slots);
    Ok(Schedule {
        slots: Seq::from_vec(slots),
        span,
    })
}
