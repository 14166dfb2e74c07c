//! The critical path.
ghost use Rattle.std.specs.Prelude.{◌≡◌, ◌⊎◌, ◌≤◌, ◌<◌, ◌^◌, ℕ, length, get_or, None, Some, IfOk, IfErr};
ghost use Rattle.em_insight.specs.Each.{Each, Any};
ghost use Rattle.em_insight.specs.Jobs.{refusal, total};
ghost use Rattle.em_insight.specs.Chains.{weight, Certifies, IsNamed};
ghost use Rattle.em_insight.specs.Found.{path_of};
ghost use Rattle.em_insight.specs.Links.{IsLead, Linked, IsWalk};

use crate::check::check;
use crate::data::Chain;
use crate::lead::Lead;
use crate::no::InsightNo;
use em_base::{NoMemory, Seq};
use em_report::{Report, ReportLine};
use std::alloc::Global;

/// For each job what the heaviest chain weighs that ends with it, and the job before it there.
#[derive(Drop)]
struct Links {
    ends: Vec<u64>,
    before: Vec<Option<u32>>,
}

/// The leader of a job's waits.
fn leader(ends: &[u64], waits: &[u32]) -> Lead
    requires { Each (λ w. w < length ends.now) waits.now }
    ensures { IsLead ends.now (λ w. Any (λ v. v ≡ w) waits.now) result }
{
    let mut lead = Lead::none();
    for wait in waits {
        lead = lead.offered(ends[*wait as usize], *wait);
    }
    lead
}

/// The links of the jobs. Linear in the jobs and their waits.
fn linked(alloc: Global, lines: &[ReportLine]) -> Result<Links, NoMemory>
    requires { refusal lines.now ≡ None }
    ensures { IfOk result (λ l. Linked lines.now (length lines.now) l.ends.items l.before.items) }
{
    let mut ends = Vec::with_capacity(alloc, lines.len())?;
    let mut before = Vec::with_capacity(alloc, lines.len())?;
    for line in lines {
        let lead = leader(&ends, line.waits.items());
        ends.push(line.fuel + lead.weight)?;
        before.push(lead.job)?;
    }
    Ok(Links { ends, before })
}

/// The leader of all jobs.
fn last_of(lines: &[ReportLine], ends: &[u64]) -> Lead
    requires order { refusal lines.now ≡ None }
    requires count { length ends.now ≡ length lines.now }
    ensures { IsLead ends.now (λ w. w < length lines.now) result }
{
    let mut lead = Lead::none();
    for (job, line) in lines.iter().enumerate() {
        lead = lead.offered(ends[job], line.job);
    }
    lead
}

/// The jobs of a chain, back from its last.
fn walk(alloc: Global, last: Option<u32>, before: &[Option<u32>]) -> Result<Vec<u32>, NoMemory>
    requires within { (j : ℕ) → last ≡ Some j → j < length before.now }
    requires below { (j k : ℕ) → get_or before.now j None ≡ Some k → k < j }
    ensures { IfOk result (λ js. IsWalk before.now last js.items) }
{
    let mut back = Vec::new(alloc);
    let mut next = last;
    while let Some(job) = next {
        back.push(job)?;
        next = before[job as usize];
    }
    Ok(back)
}

/// The critical path of a report's jobs: of the heaviest chains the one with the least last job,
/// then the least job before it, and so on, where having none counts as less than any. The list
/// without jobs is a chain, so where all fuel is 0 it is that one. The errors are those of
/// `InsightNo`. Linear in the jobs and their waits.
pub fn longest(alloc: Global, report: &Report) -> Result<Chain, InsightNo>
    ensures ok { IfOk result (λ c. refusal report.now.lines ≡ None) }
    ensures certified { IfOk result (Certifies report.now.lines) }
    ensures named { IfOk result (IsNamed report.now.lines) }
    ensures path { IfOk result (λ c. c.jobs ≡ path_of report.now.lines) }
    ensures fuel { IfOk result (λ c. c.fuel ≡ weight report.now.lines (path_of report.now.lines)) }
    ensures err { IfErr result (λ e. (e ≡ InsightNo.NoMemory) ⊎ (refusal report.now.lines ≡ Some e)) }
{
    let lines = report.lines.items();
    check(lines)?;
    let links = linked(alloc, lines)?;
    let last = last_of(lines, &links.ends);
    let mut jobs = walk(alloc, last.job, &links.before)?;
    jobs.reverse();
    let Links { ends, .. } = links;
    Ok(Chain {
        jobs: Seq::from_vec(jobs),
        fuel: last.weight,
        ends: Seq::from_vec(ends),
    })
}
