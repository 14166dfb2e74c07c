//! Whether workers pay, by the fuel that jobs took.

/// Over how many jobs the average goes.
const WINDOW: u64 = 16;

/// From this average on workers pay.
const LONG: u64 = 256;

/// Below this average they don't. Between the two all stays as it is.
const SHORT: u64 = 128;

/// A job that took more counts as one that took so much.
const MOST: u64 = 65_536;

/// How many jobs of the first board there are for each worker, beside those before the first
/// look.
const AHEAD: u64 = 2;

/// Whether workers pay: it looks at the average of the fuel that the last jobs took, after the
/// first sixteen jobs and then again after each sixteenth of the jobs of the build. It tells by
/// what was committed alone.
#[derive(Drop)]
pub(crate) struct Pace {
    /// Sixteen times the average.
    sum: u64,
    /// How many jobs there were so far.
    seen: u64,
    /// Behind how many jobs it looks next.
    next: u64,
    /// How many jobs there are from one look to the next.
    every: u64,
    pays: bool,
    /// The jobs below this one stand on the board.
    board: u64,
}

impl Pace {
    /// At the begin of a build of so many jobs, where workers are taken to pay.
    pub(crate) fn new(jobs: usize) -> Pace {
        Pace {
            sum: 0,
            seen: 0,
            next: WINDOW,
            every: jobs as u64 / WINDOW + 1,
            pays: true,
            board: 0,
        }
    }

    /// Whether workers pay for the jobs up to the next look.
    pub(crate) fn pays(&self) -> bool {
        self.pays
    }

    /// Whether they pay for the next job, and it stands on the board.
    pub(crate) fn pays_on_board(&self) -> bool {
        self.pays && self.seen < self.board
    }

    /// A board is made for a build of so many jobs with so many workers: how many of the jobs stand
    /// on it. Before the first look these are few, since it may find that all that workers run
    /// ahead of it is in vain.
    pub(crate) fn begin(&mut self, jobs: usize, workers: u32) -> usize {
        let all = jobs as u64;
        self.board = if self.seen < WINDOW {
            all.min(WINDOW + AHEAD * workers as u64)
        } else {
            all
        };
        self.board as usize
    }

    /// A job more was committed, which took so much fuel.
    pub(crate) fn note(&mut self, fuel: u64) {
        let before = if self.seen < WINDOW {
            self.sum
        } else {
            self.sum - self.sum / WINDOW
        };
        self.sum = before.saturating_add(fuel.min(MOST));
        self.seen = self.seen.saturating_add(1);
        if self.seen == self.next {
            self.look();
        }
    }

    fn look(&mut self) {
        self.next = self.next.saturating_add(self.every);
        let average = self.sum / WINDOW;
        if average >= LONG {
            self.pays = true;
        } else if average < SHORT {
            self.pays = false;
        }
    }
}
