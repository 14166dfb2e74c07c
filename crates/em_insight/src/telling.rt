//! What is said of a report.
ghost use Rattle.std.specs.Prelude.{◌≡◌, ◌⊎◌, ◌≤◌, None, Some, IfOk, IfErr};
ghost use Rattle.em_insight.specs.Jobs.{refusal};
ghost use Rattle.em_insight.specs.Telling as telling;

use crate::heaviest::longest;
use crate::listing::schedule;
use crate::no::InsightNo;
use crate::sum::total;
use em_base::{NoMemory, Text};
use em_report::{Report, ReportLine};
use itoa::Buffer;
use std::alloc::Global;

/// The target of a job; empty where there is no such job.
fn target(lines: &[ReportLine], job: u32) -> &[u8]
    ensures { result.now ≡ telling.target_at lines.now job }
{
    match lines.get(job as usize) {
        Some(line) => line.target.bytes(),
        None => &[],
    }
}

/// The targets of these jobs, each behind a blank.
fn targets(alloc: Global, lines: &[ReportLine], jobs: &[u32]) -> Result<Text, NoMemory>
    ensures { IfOk result (λ t. t ≡ telling.targets lines.now jobs.now) }
{
    let mut text = Text::new(alloc);
    for job in jobs {
        text.add(b" ")?;
        text.add(target(lines, *job))?;
    }
    Ok(text)
}

/// What a report tells of the build's speed, in three lines: the critical path with its units and
/// the targets of its jobs, the units of all jobs, and the span of the schedule that list
/// scheduling gives so many agents. The errors are those of `InsightNo`. Takes what `longest` and
/// `schedule` do.
pub fn explanation(alloc: Global, report: &Report, agents: u32) -> Result<Text, InsightNo>
    requires some { 1 ≤ agents }
    requires few { agents ≤ 64 }
    ensures ok { IfOk result (λ t. refusal report.now.lines ≡ None) }
    ensures text { IfOk result (λ t. t ≡ telling.explanation report.now.lines agents) }
    ensures err { IfErr result (λ e. (e ≡ InsightNo.NoMemory) ⊎ (refusal report.now.lines ≡ Some e)) }
{
    let path = longest(alloc, report)?;
    let schedule = schedule(alloc, report, agents)?;
    let mut buffer = Buffer::new();
    let mut out = Text::from_slice(alloc, b"chain ")?;
    out.add(buffer.format(path.fuel).as_bytes())?;
    out.add(b":")?;
    let named = targets(alloc, report.lines.items(), path.jobs.items())?;
    out.add(named.bytes())?;
    out.add(b"\ntotal ")?;
    out.add(buffer.format(total(report)).as_bytes())?;
    out.add(b"\nagents ")?;
    out.add(buffer.format(agents).as_bytes())?;
    out.add(b" span ")?;
    out.add(buffer.format(schedule.span).as_bytes())?;
    out.add(b"\n")?;
    Ok(out)
}
