//! Builds with workers.
use crate::runs::words_of;
use em_engine::Note;
use em_host::{Host, HostNo, MemHost};
use em_program::emake;
use std::alloc::Global;
use std::process::Abort;
use std::sync::Wait;
use std::sync::atomic::{AtomicU32, Ordering};
use std::test::Fail;
use std::thread::Threads;

/// A host whose prints take long.
#[derive(Drop)]
struct Slow<H: Host> {
    host: H,
    turns: AtomicU32,
}

impl<H: Host> Host for Slow<H> {
    ghost told = { λ s. H.told s.host };

    ghost faults = { λ s. H.faults s.host };

    fn take(&mut self, alloc: Global, name: &[u8]) -> Result<Option<Vec<u8>>, HostNo> {
        self.host.take(alloc, name)
    }

    fn replace(&mut self, alloc: Global, name: &[u8], bytes: &[u8]) -> Result<(), HostNo> {
        self.host.replace(alloc, name, bytes)
    }

    fn print(&mut self, bytes: &[u8]) -> Result<(), HostNo> {
        for _ in 0..100_000 {
            self.turns.fetch_add(1, Ordering::SeqCst);
        }
        self.host.print(bytes)
    }
}

/// Two jobs, of which the second reads what the first makes and doesn't say so.
pub const HIDDEN: &[u8] =
    b"EMTREE 1\nd 5 /\nf 5 42 /Makefile\nall: gen use\ngen:\n\techo 1 > g\nuse:\n\tcat g\n\n.\n";

fn host_of(alloc: Global, image: &[u8]) -> Result<MemHost, Fail> {
    let mut host = MemHost::new(alloc);
    host.put(alloc, b"i", image)?;
    Ok(host)
}

fn is_twice(notes: &[Note]) -> bool {
    notes.iter().any(|note| note.runs == 2)
}

/// Builds over a host whose prints take long, with 8 workers and a history that pairs `use` with
/// `gen`. Whether a job was run twice.
fn build_slowly<R: Abort + Threads + Wait + Sync>(
    rt: &R,
    alloc: Global,
    words: &str,
) -> Result<bool, Fail> {
    let mut memory = host_of(alloc, HIDDEN)?;
    memory.put(alloc, b"H", b"EMHIST 1\nuse gen\n.\n")?;
    let mut host = Slow {
        host: memory,
        turns: AtomicU32::new(0),
    };
    let words = words_of(alloc, words)?;
    let ended = emake(rt, alloc, words.items(), &mut host);
    assert!(rt; ended.status == 0);
    assert!(rt; host.host.printed() == b"echo 1 > g\ncat g\n1\n".as_slice());
    Ok(is_twice(ended.notes.items()))
}

#[test]
fn a_job_that_is_run_ahead_too_early_is_run_again(rt: HostRuntime) -> Result<(), Fail> {
    // one of a hundred does, unless the machine has no processor left for a second thread
    for _ in 0..2000 {
        if build_slowly(&rt, rt.alloc(), "-I i -j 8 all")? {
            return Ok(());
        }
    }
    Err("no job was run twice".into())
}

#[test]
fn a_job_that_waits_by_the_history_is_run_once(rt: HostRuntime) -> Result<(), Fail> {
    for _ in 0..100 {
        let is_twice = build_slowly(&rt, rt.alloc(), "-I i -j 8 --history H --mode read all")?;
        assert!(rt; !is_twice);
    }
    Ok(())
}
