//! What all jobs took together.
ghost use Rattle.std.specs.Prelude.{◌≡◌, None};
ghost use Rattle.em_insight.specs.Jobs.{refusal};
ghost use Rattle.em_insight.specs.Jobs as jobs;

use em_report::Report;

/// The units of fuel of all jobs together. Linear in the jobs.
pub fn total(report: &Report) -> u64
    requires { refusal report.now.lines ≡ None }
    ensures { result ≡ jobs.total report.now.lines }
{
    let lines = report.lines.items();
    let mut sum = 0;
    for line in lines {
        sum += line.fuel;
    }
    sum
}
