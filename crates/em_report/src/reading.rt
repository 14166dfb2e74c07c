//! A report, read from its text.
ghost use Rattle.std.specs.Prelude.{◌≡◌, ℕ, length, nat_lt, ◌==◌, IfOk, IsErrOf};
ghost use Rattle.em_report.specs.Reports.{report_text, IsReport, IsFault};
ghost use Rattle.em_report.specs.Parts.{Gives, seen, waits_at};
ghost use Rattle.em_report.specs.Reading.{next, line_at, lines_at, status_at, report_at, reading};

use crate::cursor::Cursor;
use crate::no::ReportNo;
use crate::parts::{cause, fixed, gap, name, number, runs, text};
use crate::report::{Report, ReportLine};
use em_base::{Seq, Text};
use std::alloc::Global;

/// Takes the jobs that a job waited for, each behind a blank, and the newline. Each takes a byte at
/// least.
fn waits(alloc: Global, cursor: Cursor) -> Result<(Seq<u32>, Cursor), ReportNo>
    ensures { Gives (λ x. (x.0, seen x.1)) result
        (waits_at (length cursor.entry.rest.now) (seen cursor.entry)) }
{
    let mut waits = Seq::new(alloc);
    let mut here = cursor;
    for _ in 0..cursor.rest.len() {
        let (is_end, after) = gap(here)?;
        if is_end {
            return Ok((waits, after));
        }
        let (wait, after) = number(after, u64::from(u32::MAX))?;
        waits.push(wait as u32)?;
        here = after;
    }
    Err(ReportNo::Form(here.at))
}

/// Takes a line.
#[tactic(auto, unfolding(crate::specs::Reading::line_at))]
fn line(alloc: Global, cursor: Cursor) -> Result<(ReportLine, Cursor), ReportNo>
    ensures { Gives (λ x. (x.0, seen x.1)) result (line_at (seen cursor.entry)) }
{
    let cursor = text(cursor, b"job ")?;
    let (job, cursor) = number(cursor, u64::from(u32::MAX))?;
    let cursor = fixed(cursor, b' ')?;
    let (runs, cursor) = runs(cursor)?;
    let cursor = fixed(cursor, b' ')?;
    let (cause, cursor) = cause(cursor)?;
    let cursor = fixed(cursor, b' ')?;
    let (fuel, cursor) = number(cursor, u64::MAX)?;
    let cursor = fixed(cursor, b' ')?;
    let (target, cursor) = name(cursor)?;
    let target = Text::from_slice(alloc, target)?;
    let (waits, cursor) = waits(alloc, cursor)?;
    let line = ReportLine {
        job: job as u32,
        runs,
        cause,
        fuel,
        target,
        waits,
    };
    Ok((line, cursor))
}

/// Whether a line begins here.
fn begins_line(bytes: &[u8]) -> bool
    ensures { result ≡ (next bytes.now == 106) }
{
    match bytes {
        [first, ..] => *first == b'j',
        [] => false,
    }
}

/// Takes the lines. Each takes a byte at least.
fn lines(alloc: Global, cursor: Cursor) -> Result<(Seq<ReportLine>, Cursor), ReportNo>
    ensures { Gives (λ x. (x.0, seen x.1)) result
        (lines_at (length cursor.entry.rest.now) (seen cursor.entry)) }
{
    let mut lines = Seq::new(alloc);
    let mut here = cursor;
    for _ in 0..cursor.rest.len() {
        if !begins_line(here.rest) {
            return Ok((lines, here));
        }
        let (line, after) = line(alloc, here)?;
        lines.push(line)?;
        here = after;
    }
    Ok((lines, here))
}

/// Takes the last lines: the status, and the end.
#[tactic(auto, unfolding(crate::specs::Reading::status_at))]
fn status(cursor: Cursor) -> Result<(u8, Cursor), ReportNo>
    ensures { Gives (λ x. (x.0, seen x.1)) result (status_at (seen cursor.entry)) }
{
    let cursor = text(cursor, b"status ")?;
    let (status, cursor) = number(cursor, u64::from(u8::MAX))?;
    let cursor = text(cursor, b"\n.\n")?;
    Ok((status as u8, cursor))
}

/// Takes a report.
#[tactic(auto, unfolding(crate::specs::Reading::report_at))]
fn report(alloc: Global, cursor: Cursor) -> Result<(Report, Cursor), ReportNo>
    ensures { Gives (λ x. (x.0, seen x.1)) result (report_at (seen cursor.entry)) }
{
    let cursor = text(cursor, b"EMREPORT 1\n")?;
    let (lines, cursor) = lines(alloc, cursor)?;
    let (status, cursor) = status(cursor)?;
    Ok((Report { lines, status }, cursor))
}

/// Reads the whole text.
#[tactic(auto, unfolding(crate::specs::Reading::reading))]
fn whole(alloc: Global, bytes: &[u8]) -> Result<Report, ReportNo>
    ensures { Gives (λ r. r) result (reading bytes.now) }
{
    let (report, end) = report(alloc, Cursor { at: 0, rest: bytes })?;
    if !end.rest.is_empty() {
        return Err(ReportNo::Form(end.at));
    }
    Ok(report)
}

/// The report of which this is the text, or the first byte at which no report goes on: the text's
/// length, where it ends too early. Numbers are canonical decimal within the bounds of their
/// fields, and runs are 1 or 2. Linear in the bytes.
pub fn read(alloc: Global, bytes: &[u8]) -> Result<Report, ReportNo>
    ensures reading { Gives (λ r. r) result (reading bytes.now) }
    ensures report { IfOk result IsReport }
    ensures text { IfOk result (λ r. report_text r ≡ bytes.now) }
    ensures fault { (at : ℕ) → IsErrOf result (ReportNo.Form at) → IsFault bytes.now at }
{
    whole(alloc, bytes)
}
