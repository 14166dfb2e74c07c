//! Whether a report can be looked into.
ghost use Rattle.std.specs.Prelude.{◌≡◌, ◌^◌, nat_lt, None, Some, IfOk, IfErr};
ghost use Rattle.std.specs.List.{list_all};
ghost use Rattle.em_insight.specs.Jobs.{total, refusal};
ghost use Rattle.em_insight.specs.Jobs as jobs;

use crate::no::InsightNo;
use em_report::ReportLine;

/// No report has more fuel.
const MOST: u64 = 1 << 62;

/// Whether all are below the job.
fn are_below(waits: &[u32], job: usize) -> bool
    ensures { result ≡ list_all (λ w. nat_lt w job) waits.now }
{
    waits.iter().all(|wait| (*wait as usize) < job)
}

/// Whether it is the line of the job with this number, which waits for jobs below it alone. Linear
/// in the waits.
fn is_in_order(job: usize, line: &ReportLine) -> bool
    ensures { result ≡ jobs.is_in_order job line.now }
{
    line.job as usize == job && are_below(line.waits.items(), job)
}

/// The first line that is none.
fn out_of_order(lines: &[ReportLine]) -> Option<usize>
    ensures { result ≡ jobs.out_of_order 0 lines.now }
{
    for (job, line) in lines.iter().enumerate() {
        if !is_in_order(job, line) {
            return Some(job);
        }
    }
    None
}

/// Whether the fuel adds up to more than the most.
fn is_too_much(lines: &[ReportLine]) -> bool
    ensures { result ≡ nat_lt (2 ^ 62) (total lines.now) }
{
    let mut sum = 0;
    for line in lines {
        if line.fuel > MOST - sum {
            return true;
        }
        sum += line.fuel;
    }
    false
}

/// Answers the first refusal. Linear in the jobs and their waits.
pub(crate) fn check(lines: &[ReportLine]) -> Result<(), InsightNo>
    ensures ok { IfOk result (λ _. refusal lines.now ≡ None) }
    ensures err { IfErr result (λ e. refusal lines.now ≡ Some e) }
{
    if let Some(job) = out_of_order(lines) {
        return Err(InsightNo::Order(job));
    }
    if is_too_much(lines) {
        return Err(InsightNo::Sum);
    }
    Ok(())
}
