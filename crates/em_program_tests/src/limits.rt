//! Limits at their last value and one above.
use crate::big::{check, image_of};
use std::alloc::Global;
use std::process::Abort;
use std::sync::Wait;
use std::test::Fail;
use std::thread::Threads;

/// A makefile of these parts, the second and the fourth so many times.
struct Limit {
    head: &'static str,
    open: &'static str,
    inner: &'static str,
    close: &'static str,
    tail: &'static str,
    /// How many are the most.
    most: u32,
    /// What is printed with so many, and the status.
    within: (&'static str, u8),
    /// The same with one more.
    above: (&'static str, u8),
}

static LIMITS: [Limit; 5] = [
    // the components of a path
    Limit {
        head: "all:\n\t@cat d",
        open: "/d",
        inner: "",
        close: "",
        tail: " 2>&1 | grep -F -c 'bad path'; true\n",
        most: 63,
        within: ("0\n", 0),
        above: ("1\n", 0),
    },
    // references in one another
    Limit {
        head: "all:\n\t@echo ",
        open: "$(or ",
        inner: "x",
        close: ")",
        tail: "\n",
        most: 200,
        within: ("x\n", 0),
        above: ("Makefile:2: *** too deep.  Stop.\n", 2),
    },
    // includes in one another: the makefile puts itself in until D is as long as the text
    Limit {
        head: "D := $(D)x\nifneq ($(D),x",
        open: "x",
        inner: "",
        close: "",
        tail: ")\ninclude Makefile\nendif\nall:\n",
        most: 64,
        within: ("emake: Nothing to be done for 'all'.\n", 0),
        above: ("Makefile:3: *** limit.  Stop.\n", 2),
    },
    // commands of the shell in one another
    Limit {
        head: "all:\n\t@",
        open: "{ ",
        inner: "echo x",
        close: "; }",
        tail: "\n",
        most: 64,
        within: ("x\n", 0),
        above: ("emake: *** [Makefile:2: all] Refused: depth.  Stop.\n", 4),
    },
    // the bytes of a line
    Limit {
        head: "all:\nA = ",
        open: "x",
        inner: "",
        close: "",
        tail: "\n",
        most: 1_048_572,
        within: ("emake: Nothing to be done for 'all'.\n", 0),
        above: ("Makefile:2: *** limit.  Stop.\n", 2),
    },
];

/// The units of a job: one for the target's stamp, loops of 911110 and 81110, and 7779 commands.
static UNITS: Limit = Limit {
    head: "all:\n\t@for x in 0 1 2 3 4 5 6 7 8 9; do for x in 0 1 2 3 4 5 6 7 8 9; do for x in \
    0 1 2 3 4 5 6 7 8 9; do for x in 0 1 2 3 4 5 6 7 8 9; do for x in 0 1 2 3 4 5 6 7 8 \
    9; do :; :; :; :; :; :; :; :; done; done; done; done; done; for x in 0 1 2 3 4 5 6 \
    7 8 9; do for x in 0 1 2 3 4 5 6 7 8 9; do for x in 0 1 2 3 4 5 6 7 8 9; do for x \
    in 0 1 2 3 4 5 6 7 8 9; do :; :; :; :; :; :; :; done; done; done; done; ",
    open: ":; ",
    inner: ":",
    close: "",
    tail: "\n",
    most: 7_778,
    within: ("", 0),
    above: ("emake: *** [Makefile:2: all] Fuel spent.  Stop.\n", 5),
};

/// Adds the piece so many times.
fn repeat(text: &mut String, piece: &str, count: u32) -> Result<(), Fail> {
    for _ in 0..count {
        text.push_str(piece)?;
    }
    Ok(())
}

/// The makefile with so many of the repeated parts.
fn makefile(alloc: Global, limit: &Limit, count: u32) -> Result<String, Fail> {
    let mut text = String::from_str(alloc, limit.head)?;
    repeat(&mut text, limit.open, count)?;
    text.push_str(limit.inner)?;
    repeat(&mut text, limit.close, count)?;
    text.push_str(limit.tail)?;
    Ok(text)
}

/// Builds with the last value, and with one more.
fn try_limit<R: Abort + Threads + Wait + Sync>(
    rt: &R,
    alloc: Global,
    limit: &Limit,
) -> Result<(), Fail> {
    for (count, (printed, status)) in [
        (limit.most, limit.within),
        (limit.most.saturating_add(1), limit.above),
    ] {
        let makefile = makefile(alloc, limit, count)?;
        let image = image_of(alloc, makefile.as_str(), 0)?;
        check(rt, alloc, "-I i", image.bytes(), printed, status)?;
    }
    Ok(())
}

#[test]
fn limits_hold_at_their_last_value(rt: HostRuntime) -> Result<(), Fail> {
    for limit in &LIMITS {
        try_limit(&rt, rt.alloc(), limit)?;
    }
    Ok(())
}

#[test]
fn a_job_has_1000000_units(rt: HostRuntime) -> Result<(), Fail> {
    try_limit(&rt, rt.alloc(), &UNITS)
}

#[test]
fn at_most_64_workers_build(rt: HostRuntime) -> Result<(), Fail> {
    let image = image_of(rt.alloc(), "all:\n", 0)?;
    for (words, printed, status) in [
        ("-I i -j 64", "emake: Nothing to be done for 'all'.\n", 0),
        ("-I i -j 65", "emake: *** bad number '65'.  Stop.\n", 2),
    ] {
        check(&rt, rt.alloc(), words, image.bytes(), printed, status)?;
    }
    Ok(())
}
