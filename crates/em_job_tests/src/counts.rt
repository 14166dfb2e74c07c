//! Builds with workers: how often jobs are run.
use super::makefiles::{HIDDEN, Jobs, read_jobs};
use em_base::Seq;
use em_engine::Note;
use em_host::MemHost;
use em_job::JobWork;
use em_testing::{Counter, are_lower, are_numbered};
use em_workers::{OpenGate, build};
use std::alloc::Global;
use std::sync::Wait;
use std::test::Fail;
use std::thread::Threads;

/// The first of two jobs fails.
const FAILING: &str =
    "EMTREE 1\nd 5 /\nf 5 34 /Makefile\nall: a z\na:\n\tfalse\nz:\n\techo z > z\n\n.\n";

/// Seven targets, each of which reads the one of half the number before its own and doesn't say so.
const TREE: &str = "EMTREE 1\nd 1 /\nf 1 163 /Makefile\nall: t0 t1 t2 t3 t4 t5 t6\n\
    t0:\n\tcat s0 > t0\nt1:\n\tcat s1 t0 > t1\nt2:\n\tcat s2 t0 > t2\n\
    t3:\n\tcat s3 t1 > t3\nt4:\n\tcat s4 t1 > t4\nt5:\n\tcat s5 t2 > t5\n\
    t6:\n\tcat s6 t2 > t6\n\nf 1 2 /s0\n0\n\nf 1 2 /s1\n1\n\nf 1 2 /s2\n2\n\n\
    f 1 2 /s3\n3\n\nf 1 2 /s4\n4\n\nf 1 2 /s5\n5\n\nf 1 2 /s6\n6\n\n.\n";

/// The notes of a build with 8 workers, whose runs are counted.
fn counted<R: Threads + Wait + Sync>(
    rt: &R,
    alloc: Global,
    image: &str,
    counter: &Counter<JobWork>,
) -> Result<Seq<Note>, Fail> {
    let (start, jobs) = read_jobs(alloc, image)?;
    let Jobs { specs, waits } = jobs;
    let count = specs.len();
    if count > 100 || waits.len() != count {
        return Err("jobs".into());
    }
    if !are_numbered(specs.items()) || !are_lower(waits.items()) {
        return Err("numbers or waits".into());
    }
    let mut host = MemHost::new(alloc);
    let built = build(
        rt, alloc, start, specs, waits, 8, counter, &OpenGate, &mut host,
    )?;
    Ok(built.notes)
}

#[test]
fn a_job_is_run_as_often_as_its_note_says(rt: HostRuntime) -> Result<(), Fail> {
    for (image, jobs, all) in [(HIDDEN, 3, 3), (FAILING, 1, 3), (TREE, 8, 8)] {
        let counter = Counter::new(rt.alloc(), JobWork::new(), all)?;
        let notes = counted(&rt, rt.alloc(), image, &counter)?;
        assert!(rt; notes.len() == jobs);
        for note in notes.items() {
            assert!(rt; counter.runs(note.job) == u32::from(note.runs));
        }
        for job in jobs as u32..all as u32 {
            assert!(rt; counter.runs(job) <= 1);
        }
    }
    Ok(())
}
