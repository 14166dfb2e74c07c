//! Work of which is known how much is under way, and how far it got.
use em_base::NoMemory;
use em_run::{Run, Spec, Work};
use em_view::View;
use std::alloc::Global;
use std::sync::atomic::{AtomicU32, Ordering};

/// Has jobs run, counts how many are run now, and knows how far the jobs reach that were run.
#[derive(Drop)]
pub(crate) struct Counted<'a, W> {
    work: &'a W,
    running: AtomicU32,
    end: AtomicU32,
}

impl<'a, W> Counted<'a, W> {
    /// Before the first run.
    pub(crate) fn new(work: &'a W) -> Counted<'a, W> {
        Counted {
            work,
            running: AtomicU32::new(0),
            end: AtomicU32::new(0),
        }
    }

    /// How many jobs are run now.
    pub(crate) fn running(&self) -> u32 {
        self.running.load(Ordering::SeqCst)
    }

    /// All jobs that were run are below this one.
    pub(crate) fn end(&self) -> u32 {
        self.end.load(Ordering::SeqCst)
    }

    fn begin(&self, job: u32) {
        self.running.fetch_add(1, Ordering::SeqCst);
        self.end.fetch_max(job.saturating_add(1), Ordering::SeqCst);
    }
}

impl<'a, S: Spec, W: Work<S>> Work<S> for Counted<'a, W> {
    fn run<V: View>(&self, alloc: Global, spec: &S, view: V) -> Result<Run<S>, NoMemory> {
        self.begin(spec.job());
        let run = self.work.run(alloc, spec, view);
        self.running.fetch_sub(1, Ordering::SeqCst);
        run
    }
}
