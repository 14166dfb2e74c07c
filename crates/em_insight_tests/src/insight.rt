use em_base::Text;
use em_insight::{InsightNo, longest, schedule, total};
use em_report::read;
use std::alloc::Global;
use std::test::Fail;

/// Reports by their lines, each with the agents, and what is to be said: the chain's fuel, that
/// of all jobs, the chain's jobs, the span.
static REPORTS: [(&[u8], u32, &[u8]); 9] = [
    (b"job 0 1 - 7 b\njob 1 1 - 10 a 0\n", 2, b"17 of 17: 0 1 17"),
    (
        b"job 0 1 - 2 a\njob 1 1 - 2 b\njob 2 1 - 3 c\n",
        2,
        b"3 of 7: 2 5",
    ),
    (
        b"job 0 1 - 2 a\njob 1 1 - 2 b\njob 2 1 - 3 c\n",
        64,
        b"3 of 7: 2 3",
    ),
    (b"", 1, b"0 of 0: 0"),
    // of several chains of the greatest weight that with the least last job, then the least before
    // it
    (
        b"job 0 1 - 3 a\njob 1 1 - 3 b\njob 2 1 - 4 c 1 0\njob 3 1 - 7 d\n",
        1,
        b"7 of 17: 0 2 17",
    ),
    (b"job 0 1 - 3 a\njob 1 1 - 3 b\n", 1, b"3 of 6: 0 6"),
    // a job that took nothing doesn't begin a chain, and holds no agent
    (
        b"job 0 1 - 0 a\njob 1 1 - 5 b 0\njob 2 1 - 0 c 1\n",
        1,
        b"5 of 5: 1 5",
    ),
    (b"job 0 1 - 0 a\n", 1, b"0 of 0: 0"),
    // a wait that is told twice
    (
        b"job 0 1 - 4 a\njob 1 1 - 1 b\njob 2 1 - 2 c 0 0 1\n",
        2,
        b"6 of 7: 0 2 6",
    ),
];

/// The text of a report with these lines.
fn report_of(alloc: Global, lines: &[u8]) -> Result<Text, Fail> {
    let mut text = Text::from_slice(alloc, b"EMREPORT 1\n")?;
    text.add(lines)?;
    text.add(b"status 0\n.\n")?;
    Ok(text)
}

/// What is said of a report. Without agents, or with more than 64, it has no span.
fn said(alloc: Global, lines: &[u8], agents: u32) -> Result<Text, Fail> {
    let text = report_of(alloc, lines)?;
    let report = read(alloc, text.bytes())?;
    let chain = longest(alloc, &report)?;
    let mut out = Text::new(alloc);
    let units = total(&report);
    out.add(format!(in alloc; "{} of {units}:", chain.fuel)?.as_bytes())?;
    for job in chain.jobs.items() {
        out.add(format!(in alloc; " {job}")?.as_bytes())?;
    }
    if agents == 0 || agents > 64 {
        return Ok(out);
    }
    let span = schedule(alloc, &report, agents)?.span;
    out.add(format!(in alloc; " {span}")?.as_bytes())?;
    Ok(out)
}

#[test]
fn paths_and_spans_are_as_worked(rt: HostRuntime) -> Result<(), Fail> {
    for (lines, agents, wanted) in &REPORTS {
        assert!(rt; said(rt.alloc(), lines, *agents)?.bytes() == *wanted);
    }
    Ok(())
}

static REFUSED: [(&[u8], InsightNo); 5] = [
    (b"job 0 1 - 1 a 0\n", InsightNo::Order(0)),
    (b"job 0 1 - 1 a\njob 2 1 - 1 b\n", InsightNo::Order(1)),
    (b"job 0 1 - 1 a\njob 1 1 - 1 b 5 0\n", InsightNo::Order(1)),
    (
        b"job 0 1 - 4611686018427387904 a\njob 1 1 - 1 b\n",
        InsightNo::Sum,
    ),
    (
        b"job 0 1 - 18446744073709551615 a\njob 1 1 - 1 b 1\n",
        InsightNo::Order(1),
    ),
];

#[test]
fn reports_are_refused(rt: HostRuntime) -> Result<(), Fail> {
    for (lines, wanted) in &REFUSED {
        let text = report_of(rt.alloc(), lines)?;
        let report = read(rt.alloc(), text.bytes())?;
        assert!(rt; longest(rt.alloc(), &report) == Err(*wanted));
        assert!(rt; schedule(rt.alloc(), &report, 1) == Err(*wanted));
    }
    Ok(())
}
