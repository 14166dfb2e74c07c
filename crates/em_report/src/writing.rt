//! A report's text.
ghost use Rattle.std.specs.Prelude.{◌≡◌, ◌++◌, decimal, IfOk, OnOk};
ghost use Rattle.std.specs.List.{flat_map};
ghost use Rattle.em_report.specs.Reports.{wait_text, line_text, report_text};

use crate::report::{Report, ReportLine};
use crate::words::word;
use em_base::{NoMemory, Text};
use itoa::Buffer;
use std::alloc::Global;

/// Appends a number.
fn put_number(out: &mut Text, number: u64) -> Result<(), NoMemory>
    ensures { OnOk result (out.new ≡ out.old ++ decimal number) }
{
    let mut buffer = Buffer::new();
    out.add(buffer.format(number).as_bytes())
}

/// Appends the jobs that a job waited for, each behind a blank.
fn put_waits(out: &mut Text, waits: &[u32]) -> Result<(), NoMemory>
    ensures { OnOk result (out.new ≡ out.old ++ flat_map wait_text waits.now) }
{
    for wait in waits {
        out.add(b" ")?;
        put_number(out, u64::from(*wait))?;
    }
    Ok(())
}

/// Appends a line.
fn put_line(out: &mut Text, line: &ReportLine) -> Result<(), NoMemory>
    ensures { OnOk result (out.new ≡ out.old ++ line_text line.now) }
{
    out.add(b"job ")?;
    put_number(out, u64::from(line.job))?;
    out.add(b" ")?;
    put_number(out, u64::from(line.runs))?;
    out.add(b" ")?;
    out.add(word(line.cause))?;
    out.add(b" ")?;
    put_number(out, line.fuel)?;
    out.add(b" ")?;
    out.add(line.target.bytes())?;
    put_waits(out, line.waits.items())?;
    out.add(b"\n")
}

/// Appends the lines.
fn put_lines(out: &mut Text, lines: &[ReportLine]) -> Result<(), NoMemory>
    ensures { OnOk result (out.new ≡ out.old ++ flat_map line_text lines.now) }
{
    for line in lines {
        put_line(out, line)?;
    }
    Ok(())
}

/// The report's text: `EMREPORT 1\n`; for each job `job`, its number, its runs, `-`, `differ`,
/// `strange`, `foreign` or `memory`, its fuel, its target and the jobs that it waited for, with
/// single spaces between them, and a newline; `status`, a space and the status, and `\n.\n`. A
/// target is written as it is; one that is no name (`is_name` of em_history) can't be read again.
/// Linear in the text.
pub fn write(alloc: Global, report: &Report) -> Result<Text, NoMemory>
    ensures { IfOk result (λ t. t ≡ report_text report.now) }
{
    let mut out = Text::from_slice(alloc, b"EMREPORT 1\n")?;
    put_lines(&mut out, report.lines.items())?;
    out.add(b"status ")?;
    put_number(&mut out, u64::from(report.status))?;
    out.add(b"\n.\n")?;
    Ok(out)
}
