//! History, report and generated projects.
use crate::runs::run;
use crate::workers::HIDDEN;
use em_host::MemHost;
use std::alloc::Global;
use std::process::Abort;
use std::sync::Wait;
use std::test::Fail;
use std::thread::Threads;

/// `b` is made, and `a` is a copy of it.
const COPY: &[u8] = b"EMTREE 1\nd 5 /\nf 5 28 /Makefile\na: b\n\tcp b a\nb:\n\techo x > b\n\n.\n";

/// Words, the image and the history before, which may be absent; what is printed, the status, the
/// history and the report after.
struct Kept {
    words: &'static str,
    image: &'static [u8],
    before: Option<&'static [u8]>,
    printed: &'static [u8],
    status: u8,
    after: Option<&'static [u8]>,
    report: Option<&'static [u8]>,
}

const PAIRED: &[u8] = b"EMHIST 1\nuse gen\n.\n";

const NO_PAIRS: &[u8] = b"EMHIST 1\n.\n";

static KEPT: [Kept; 8] = [
    Kept {
        words: "-I i -j 1 --history H a",
        image: COPY,
        before: Some(b"\xff\x00"),
        printed: b"echo x > b\ncp b a\n",
        status: 0,
        after: Some(NO_PAIRS),
        report: None,
    },
    Kept {
        words: "-I i --report R --history H -j 1 a",
        image: COPY,
        before: None,
        printed: b"echo x > b\ncp b a\n",
        status: 0,
        after: Some(NO_PAIRS),
        report: Some(b"EMREPORT 1\njob 0 1 - 7 b\njob 1 1 - 10 a 0\nstatus 0\n.\n"),
    },
    Kept {
        words: "-I i -j 1 --history H --mode create",
        image: HIDDEN,
        before: Some(PAIRED),
        printed: b"echo 1 > g\ncat g\n1\n",
        status: 0,
        after: Some(NO_PAIRS),
        report: None,
    },
    Kept {
        words: "-I i -j 1 --history H --mode merge",
        image: HIDDEN,
        before: Some(PAIRED),
        printed: b"echo 1 > g\ncat g\n1\n",
        status: 0,
        after: Some(PAIRED),
        report: None,
    },
    Kept {
        words: "-I i -j 1 --history H --mode read",
        image: HIDDEN,
        before: Some(PAIRED),
        printed: b"echo 1 > g\ncat g\n1\n",
        status: 0,
        after: Some(PAIRED),
        report: None,
    },
    Kept {
        words: "-I i -q --history H --mode create --report R a",
        image: COPY,
        before: Some(PAIRED),
        printed: b"",
        status: 1,
        after: Some(PAIRED),
        report: None,
    },
    Kept {
        words: "-I i -C x --history H --mode create --report R a",
        image: COPY,
        before: Some(PAIRED),
        printed: b"emake: *** x: no such directory.  Stop.\n",
        status: 2,
        after: Some(PAIRED),
        report: None,
    },
    Kept {
        words: "-I i --history H --report R no",
        image: COPY,
        before: Some(b"no history"),
        printed: b"emake: *** No rule to make target 'no'.  Stop.\n",
        status: 2,
        after: Some(NO_PAIRS),
        report: Some(b"EMREPORT 1\njob 0 1 - 1 no\nstatus 2\n.\n"),
    },
];

fn try_kept<R: Abort + Threads + Wait + Sync>(
    rt: &R,
    alloc: Global,
    number: usize,
    kept: &Kept,
) -> Result<(), Fail> {
    let mut host = MemHost::new(alloc);
    host.put(alloc, b"i", kept.image)?;
    if let Some(history) = kept.before {
        host.put(alloc, b"H", history)?;
    }
    let (printed, status) = run(rt, alloc, kept.words, &mut host)?;
    let is_right = printed.bytes() == kept.printed && status == kept.status;
    let is_kept = host.file(b"H") == kept.after && host.file(b"R") == kept.report;
    assert!(rt;
        is_right,
        "what build {number} with a history prints, or its status"
    );
    assert!(rt; is_kept, "the files after build {number} with a history");
    Ok(())
}

#[test]
fn history_and_report_are_kept(rt: HostRuntime) -> Result<(), Fail> {
    for (number, kept) in KEPT.iter().enumerate() {
        try_kept(&rt, rt.alloc(), number, kept)?;
    }
    Ok(())
}

/// Words, what is printed, and the status.
const GENERATED: [(&str, &[u8], u8); 9] = [
    (
        "--gen 7 -j 1",
        b"jobs 8\nprinted 102\nnodes 16\nstatus 0\n",
        0,
    ),
    (
        "--gen 7 -j 64",
        b"jobs 8\nprinted 102\nnodes 16\nstatus 0\n",
        0,
    ),
    (
        "--gen 7 no",
        b"jobs 8\nprinted 102\nnodes 16\nstatus 0\n",
        0,
    ),
    (
        "--gen 100 -j 1",
        b"jobs 101\nprinted 1756\nnodes 202\nstatus 0\n",
        0,
    ),
    (
        "--gen 100 -j 16",
        b"jobs 101\nprinted 1756\nnodes 202\nstatus 0\n",
        0,
    ),
    (
        "--gen 1000 -j 1",
        b"jobs 1001\nprinted 20555\nnodes 2002\nstatus 0\n",
        0,
    ),
    (
        "--gen 1000 -j 16",
        b"jobs 1001\nprinted 20555\nnodes 2002\nstatus 0\n",
        0,
    ),
    ("--gen 7 -q", b"jobs 8\nprinted 0\nnodes 9\nstatus 1\n", 1),
    (
        "--gen 7 -C x",
        b"emake: *** x: no such directory.  Stop.\n",
        2,
    ),
];

#[test]
fn generated_projects_are_counted(rt: HostRuntime) -> Result<(), Fail> {
    for (words, counted, left) in GENERATED {
        let mut host = MemHost::new(rt.alloc());
        let (printed, status) = run(&rt, rt.alloc(), words, &mut host)?;
        let is_right = printed.bytes() == counted && status == left;
        assert!(rt; is_right, "what {words} prints, or its status");
    }
    Ok(())
}
