//! Who counts runs.
use em_base::NoMemory;
use em_run::{Run, Spec, Work};
use em_view::View;
use std::alloc::{AllocError, Global};
use std::sync::atomic::{AtomicU32, Ordering};

/// Has jobs run, and counts the runs of each.
#[derive(Drop)]
pub struct Counter<W: Drop> {
    work: W,
    counts: Vec<AtomicU32>,
}

impl<W: Drop> Counter<W> {
    /// Counts the runs of so many jobs, which this one runs.
    pub fn new(alloc: Global, work: W, jobs: usize) -> Result<Counter<W>, AllocError> {
        let mut counts = Vec::new(alloc);
        for _ in 0..jobs {
            counts.push(AtomicU32::new(0))?;
        }
        Ok(Counter { work, counts })
    }

    /// How often the job was run so far.
    pub fn runs(&self, job: u32) -> u32 {
        match self.counts.get(job as usize) {
            Some(count) => count.load(Ordering::SeqCst),
            None => 0,
        }
    }

    fn count(&self, job: u32) {
        if let Some(count) = self.counts.get(job as usize) {
            count.fetch_add(1, Ordering::SeqCst);
        }
    }
}

impl<S: Spec, W: Work<S>> Work<S> for Counter<W> {
    fn run<V: View>(&self, alloc: Global, spec: &S, view: V) -> Result<Run<S>, NoMemory> {
        self.count(spec.job());
        self.work.run(alloc, spec, view)
    }
}
