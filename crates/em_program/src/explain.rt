//! What a report tells of a build's speed: `--explain`.
ghost use Rattle.std.specs.Prelude.{◌≡◌, ◌≤◌};
ghost use Rattle.em_cmdline.specs.Words.{HasRanges};
ghost use Rattle.em_program.specs.Course.{Follows, faults_after};
ghost use Rattle.em_program.specs.Explaining as explaining;

use crate::messages::{NO_REPORT, insight_line, report_line};
use crate::say::{stop, take};
use crate::stop::ProgramEnd;
use crate::verdict::BuildStatus;
use em_base::Text;
use em_cmdline::Order;
use em_host::Host;
use em_insight::{InsightNo, explanation};
use em_report::{Report, ReportNo, read};
use std::alloc::Global;

/// The report's bytes.
fn report_in<H: Host>(alloc: Global, name: &[u8], host: &mut H) -> Result<Text, ProgramEnd>
    ensures told { Follows (explaining.report_in name.now) result (H.told host.old)
        (H.told host.new) }
    ensures faults { H.faults host.new ≡ faults_after result (H.faults host.old) }
{
    match take(alloc, host, name)? {
        Some(bytes) => Ok(bytes),
        None => stop(host, NO_REPORT, BuildStatus::Faulty),
    }
}

/// The report that they tell.
fn report_of<H: Host>(alloc: Global, bytes: &[u8], host: &mut H) -> Result<Report, ProgramEnd>
    ensures told { Follows (explaining.report_of bytes.now) result (H.told host.old)
        (H.told host.new) }
    ensures faults { H.faults host.new ≡ faults_after result (H.faults host.old) }
{
    match read(alloc, bytes) {
        Ok(report) => Ok(report),
        Err(ReportNo::NoMemory) => Err(ProgramEnd::NoMemory),
        Err(ReportNo::Form(at)) => {
            let line = report_line(alloc, at)?;
            stop(host, line.bytes(), BuildStatus::Faulty)
        }
    }
}

/// Says what the report tells, which ends the run.
fn told_of<H: Host>(
    alloc: Global,
    report: &Report,
    agents: u32,
    host: &mut H,
) -> Result<(), ProgramEnd>
    requires some { 1 ≤ agents }
    requires few { agents ≤ 64 }
    ensures told { Follows (explaining.told_of agents report.now.lines) result (H.told host.old)
        (H.told host.new) }
    ensures faults { H.faults host.new ≡ faults_after result (H.faults host.old) }
{
    match explanation(alloc, report, agents) {
        Ok(text) => stop(host, text.bytes(), BuildStatus::Done),
        Err(InsightNo::NoMemory) => Err(ProgramEnd::NoMemory),
        Err(no) => {
            let line = insight_line(alloc, no)?;
            stop(host, line.bytes(), BuildStatus::Faulty)
        }
    }
}

/// Where a report is to be explained, says what it tells and ends the run; else does nothing. Takes
/// what `explanation` does, and steps for the report's bytes.
pub fn explained<H: Host>(alloc: Global, order: &Order, host: &mut H) -> Result<(), ProgramEnd>
    requires { HasRanges order.now }
    ensures told { Follows (explaining.explained order.now) result (H.told host.old)
        (H.told host.new) }
    ensures faults { H.faults host.new ≡ faults_after result (H.faults host.old) }
{
    match &order.explain {
        None => Ok(()),
        Some(name) => {
            let taken = report_in(alloc, name.bytes(), host)?;
            let report = report_of(alloc, taken.bytes(), host)?;
            told_of(alloc, &report, order.agents, host)
        }
    }
}
