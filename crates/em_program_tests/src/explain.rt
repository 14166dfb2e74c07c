//! Reports that are explained, and pages.
use crate::runs::run;
use em_host::{Call, MemHost};
use std::alloc::Global;
use std::process::Abort;
use std::sync::Wait;
use std::test::Fail;
use std::thread::Threads;

/// The report of a build of `b` and then `a`, which waits for it.
const COPIED: &[u8] = b"EMREPORT 1\njob 0 1 - 7 b\njob 1 1 - 10 a 0\nstatus 0\n.\n";

const THREE: &[u8] = b"EMREPORT 1\njob 0 1 - 2 a\njob 1 1 - 2 b\njob 2 1 - 3 c\nstatus 0\n.\n";

const MUCH: &[u8] = b"EMREPORT 1\njob 0 1 - 4611686018427387904 a\njob 1 1 - 1 b\nstatus 0\n.\n";

/// Words, the report, what is printed, and the status.
static EXPLAINED: [(&str, Option<&[u8]>, &[u8], u8); 9] = [
    (
        "--explain R --agents 2",
        Some(COPIED),
        b"chain 17: b a\ntotal 17\nagents 2 span 17\n",
        0,
    ),
    (
        "--explain R --agents 2",
        Some(THREE),
        b"chain 3: c\ntotal 7\nagents 2 span 5\n",
        0,
    ),
    (
        "-k x --report R --explain R -q",
        Some(THREE),
        b"chain 3: c\ntotal 7\nagents 1 span 7\n",
        0,
    ),
    (
        "--explain R",
        Some(b"EMREPORT 1\nstatus 0\n.\n"),
        b"chain 0:\ntotal 0\nagents 1 span 0\n",
        0,
    ),
    (
        "--explain R",
        Some(b"EMREPORT 1\njob 0 1 - 1 a 0\nstatus 0\n.\n"),
        b"emake: *** report: job 0.  Stop.\n",
        2,
    ),
    (
        "--explain R",
        Some(MUCH),
        b"emake: *** report: too much fuel.  Stop.\n",
        2,
    ),
    (
        "--explain R",
        Some(b"EMREPORT 1\nstatus 0\n"),
        b"emake: *** report: Form at byte 20.  Stop.\n",
        2,
    ),
    (
        "--explain R",
        None,
        b"emake: *** report: absent.  Stop.\n",
        2,
    ),
    (
        "--explain R --gen 3",
        Some(COPIED),
        b"emake: *** missing -I.  Stop.\n",
        2,
    ),
];

fn try_explained<R: Abort + Threads + Wait + Sync>(
    rt: &R,
    alloc: Global,
    number: usize,
    row: &(&str, Option<&[u8]>, &[u8], u8),
) -> Result<(), Fail> {
    let (words, report, wanted, code) = row;
    let mut host = MemHost::new(alloc);
    if let Some(bytes) = report {
        host.put(alloc, b"R", bytes)?;
    }
    let (printed, status) = run(rt, alloc, words, &mut host)?;
    assert!(rt;
        printed.bytes() == *wanted && status == *code,
        "explanation {number}"
    );
    let replaced = host
        .calls()
        .iter()
        .any(|c| matches!(&c.call, Call::Replace { .. }));
    assert!(rt; !replaced, "a call of explanation {number}");
    Ok(())
}

#[test]
fn reports_are_explained(rt: HostRuntime) -> Result<(), Fail> {
    for (number, row) in EXPLAINED.iter().enumerate() {
        try_explained(&rt, rt.alloc(), number, row)?;
    }
    Ok(())
}

/// Words, how what is printed begins, and the status.
static PAGES: [(&str, &[u8], u8); 3] = [
    ("--help", b"usage: emake -I IMAGE ", 0),
    ("--version", b"emake 1.0, ", 0),
    ("--help -k", b"emake: *** bad words.  Stop.\n", 2),
];

#[test]
fn pages_are_printed(rt: HostRuntime) -> Result<(), Fail> {
    for (words, begin, code) in &PAGES {
        let mut host = MemHost::new(rt.alloc());
        let (printed, status) = run(&rt, rt.alloc(), words, &mut host)?;
        assert!(rt;
            printed.bytes().starts_with(begin) && status == *code,
            "at {words}"
        );
        assert!(rt; host.calls().len() == 1, "at {words}");
    }
    Ok(())
}
