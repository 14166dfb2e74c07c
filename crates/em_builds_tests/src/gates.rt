//! Gates that hold threads.
use em_workers::Gate;
use std::alloc::{AllocError, Global};
use std::sync::atomic::{AtomicBool, Ordering};
use std::thread::yield_now;

/// How often a thread looks for what another one is to do.
const TURNS: u32 = 10_000_000;

/// Whether the flag goes up within so many looks.
fn is_raised_in(flag: &AtomicBool, looks: u32) -> bool {
    for _ in 0..looks {
        if flag.load(Ordering::SeqCst) {
            return true;
        }
        yield_now();
    }
    false
}

/// Whether the flag goes up.
pub(super) fn is_raised(flag: &AtomicBool) -> bool {
    is_raised_in(flag, TURNS)
}

/// Gives a thread that is about to wait time to do so.
pub(super) fn linger() {
    for _ in 0..1000 {
        yield_now();
    }
}

/// Holds the first ask of job 0 until the first ask of job 1 has come.
#[derive(Drop)]
pub(super) struct Meeting {
    /// Whether the first ask of job 1 has come.
    came: AtomicBool,
    /// Whether job 0 was held until then.
    met: AtomicBool,
    /// Whether job 0 was held and it didn't come.
    missed: AtomicBool,
}

impl Meeting {
    pub(super) fn new() -> Meeting {
        Meeting {
            came: AtomicBool::new(false),
            met: AtomicBool::new(false),
            missed: AtomicBool::new(false),
        }
    }

    /// Whether each first ask of job 0 was held until that of job 1 came.
    pub(super) fn is_met(&self) -> bool {
        self.met.load(Ordering::SeqCst) && !self.missed.load(Ordering::SeqCst)
    }

    fn hold(&self) {
        if is_raised(&self.came) {
            self.met.store(true, Ordering::SeqCst);
        } else {
            self.missed.store(true, Ordering::SeqCst);
        }
    }
}

impl Gate for Meeting {
    fn before(&self, _worker: u32, job: u32, step: u32) {
        match (job, step) {
            (0, 0) => self.hold(),
            (1, 0) => self.came.store(true, Ordering::SeqCst),
            _ => {}
        }
    }
}

/// Holds the first ask of each run until each worker's first ask has come.
#[derive(Drop)]
pub(super) struct Roll {
    /// For each worker from 1 on whether it has asked.
    came: Vec<AtomicBool>,
    /// Whether a run was held in vain, or there was another worker.
    missed: AtomicBool,
}

impl Roll {
    /// Holds for so many workers.
    pub(super) fn new(alloc: Global, workers: u32) -> Result<Roll, AllocError> {
        let mut came = Vec::new(alloc);
        for _ in 0..workers {
            came.push(AtomicBool::new(false))?;
        }
        Ok(Roll {
            came,
            missed: AtomicBool::new(false),
        })
    }

    /// Whether all workers came, and each run was held until they had.
    pub(super) fn is_whole(&self) -> bool {
        for came in self.came.as_slice() {
            if !came.load(Ordering::SeqCst) {
                return false;
            }
        }
        !self.missed.load(Ordering::SeqCst)
    }

    /// The worker has come.
    fn mark(&self, worker: u32) {
        if worker == 0 {
            return;
        }
        match self.came.get(worker as usize - 1) {
            Some(came) => came.store(true, Ordering::SeqCst),
            None => self.missed.store(true, Ordering::SeqCst),
        }
    }

    fn hold(&self) {
        for came in self.came.as_slice() {
            if !self.missed.load(Ordering::SeqCst) && !is_raised(came) {
                self.missed.store(true, Ordering::SeqCst);
            }
        }
    }
}

impl Gate for Roll {
    fn before(&self, worker: u32, _job: u32, step: u32) {
        if step == 0 {
            self.mark(worker);
            self.hold();
        }
    }
}

/// Tells when the first ask of job 1 comes, and holds it until a flag goes up.
#[derive(Drop)]
pub(super) struct LateAsk<'a> {
    flag: &'a AtomicBool,
    /// How often it looks for the flag.
    looks: u32,
    /// Goes up with that ask.
    came: &'a AtomicBool,
    /// Whether it was held until the flag went up.
    met: AtomicBool,
    /// Whether it was held in vain.
    missed: AtomicBool,
}

impl<'a> LateAsk<'a> {
    fn looking(flag: &'a AtomicBool, came: &'a AtomicBool, looks: u32) -> LateAsk<'a> {
        LateAsk {
            flag,
            looks,
            came,
            met: AtomicBool::new(false),
            missed: AtomicBool::new(false),
        }
    }

    /// Holds the ask until the flag goes up.
    pub(super) fn new(flag: &'a AtomicBool, came: &'a AtomicBool) -> LateAsk<'a> {
        LateAsk::looking(flag, came, TURNS)
    }

    /// Looks once whether the flag is up.
    pub(super) fn at_once(flag: &'a AtomicBool, came: &'a AtomicBool) -> LateAsk<'a> {
        LateAsk::looking(flag, came, 1)
    }

    /// Whether the ask came, and the flag went up each time.
    pub(super) fn is_met(&self) -> bool {
        self.met.load(Ordering::SeqCst) && !self.missed.load(Ordering::SeqCst)
    }

    fn hold(&self) {
        self.came.store(true, Ordering::SeqCst);
        if is_raised_in(self.flag, self.looks) {
            self.met.store(true, Ordering::SeqCst);
        } else {
            self.missed.store(true, Ordering::SeqCst);
        }
    }
}

impl<'a> Gate for LateAsk<'a> {
    fn before(&self, _worker: u32, job: u32, step: u32) {
        if job == 1 && step == 0 {
            self.hold();
        }
    }
}

/// Holds the first ask of job 0 until two workers have begun, and those of jobs 1 and 2 until both
/// have come.
#[derive(Drop)]
pub(super) struct Fork {
    /// Whether either worker is about to claim a job.
    pub(super) begun: (AtomicBool, AtomicBool),
    /// Whether the first ask of job 1, and of job 2, has come.
    came: (AtomicBool, AtomicBool),
    /// Whether one was held in vain.
    missed: AtomicBool,
}

impl Fork {
    pub(super) fn new() -> Fork {
        Fork {
            begun: (AtomicBool::new(false), AtomicBool::new(false)),
            came: (AtomicBool::new(false), AtomicBool::new(false)),
            missed: AtomicBool::new(false),
        }
    }

    /// Whether jobs 1 and 2 have met.
    pub(super) fn is_met(&self) -> bool {
        let came = self.came.0.load(Ordering::SeqCst) && self.came.1.load(Ordering::SeqCst);
        came && !self.missed.load(Ordering::SeqCst)
    }

    fn hold(&self, flag: &AtomicBool) {
        if !is_raised(flag) {
            self.missed.store(true, Ordering::SeqCst);
        }
    }

    /// Comes, and waits for the other one.
    fn meet(&self, own: &AtomicBool, other: &AtomicBool) {
        own.store(true, Ordering::SeqCst);
        self.hold(other);
    }

    fn hold_first(&self) {
        self.hold(&self.begun.0);
        self.hold(&self.begun.1);
        linger();
    }
}

impl Gate for Fork {
    fn before(&self, _worker: u32, job: u32, step: u32) {
        match (job, step) {
            (0, 0) => self.hold_first(),
            (1, 0) => self.meet(&self.came.0, &self.came.1),
            (2, 0) => self.meet(&self.came.1, &self.came.0),
            _ => {}
        }
    }
}
