//! The jobs that haven't started, by what each waits for.
ghost use Rattle.std.specs.Prelude.{◌≡◌, ◌≤◌, ◌<◌, ◌⊎◌, ◌↔◌, ◌+◌, ℕ, true, false, List, [], ◌∷◌, ◌++◌, slice_set, slice_index_or, length, get_or, take, slice_get, OnOk, IfOk, IfSome, IfNone, Some, None};
ghost use Rattle.std.specs.BTreeSet.{contains, Updates, btree_set_len};
ghost use Rattle.em_insight.specs.Each.{Each, Any};
ghost use Rattle.em_insight.specs.Jobs.{refusal};
ghost use Rattle.em_insight.specs.Queues.{IsDue, IsUnstarted, IsLoose, IsFiled, IsSynced, HasStarted, SameStarts, SameReady, HasCome, AreLater, pairs};

use em_base::{NoMemory, Seq};
use em_report::ReportLine;
use std::alloc::Global;
use std::collections::BTreeSet;

/// Where a job stands.
#[derive(Clone, Copy)]
pub(crate) enum Place {
    /// Of its waits so many have started, from the first on, and the last of them ends at this
    /// moment.
    Held(usize, u64),
    /// All its waits have started, and the last ends at this moment, which hasn't come.
    Coming(u64),
    /// That moment has come.
    Ready(u64),
    /// It has started, and ends at this moment.
    Started(u64),
}

/// Where each job stands.
#[derive(Drop)]
pub(crate) struct Queue {
    pub places: Vec<Place>,
    /// For each job those that it holds up: it is the first of their waits that hasn't started.
    pub held: Vec<Seq<u32>>,
    /// The coming jobs by their moments.
    pub coming: BTreeSet<(u64, u32)>,
    pub ready: BTreeSet<u32>,
}

/// Goes on along a job's waits to the first that hasn't started: its place, and when the last of
/// those before it ends.
fn advance(places: &[Place], waits: &[u32], next: usize, due: u64) -> (usize, u64)
    requires begun { next ≤ length waits.now }
    requires within { Each (λ w. w < length places.now) waits.now }
    requires due { IsDue places.now (take next waits.now) due }
    ensures stops { result.0 ≤ length waits.now }
    ensures due { IsDue places.now (take result.0 waits.now) result.1 }
    ensures held { result.0 < length waits.now
        → IsUnstarted places.now (get_or waits.now result.0 0) }
{
    let mut latest = due;
    for at in next..waits.len() {
        let Place::Started(end) = places[waits[at] as usize] else {
            return (at, latest);
        };
        latest = latest.max(end);
    }
    (waits.len(), latest)
}

impl Queue {
    /// Where each job stands when none has started. Linear in the jobs and their waits, but for the
    /// logarithm of how many jobs there are.
    pub fn new(alloc: Global, lines: &[ReportLine]) -> Result<Queue, NoMemory>
        requires { refusal lines.now ≡ None }
        ensures synced { IfOk result (IsSynced lines.now) }
        ensures filed { IfOk result (λ q. (j : ℕ) → IsFiled lines.now q j) }
        ensures none { IfOk result (λ q. (j : ℕ) → IsUnstarted q.places.items j) }
        ensures ready { IfOk result (λ q. (j due : ℕ)
            → slice_get q.places.items j ≡ Some (Place.Ready due) → ⊥) }
    {
        let mut places = Vec::with_capacity(alloc, lines.len())?;
        let mut held = Vec::with_capacity(alloc, lines.len())?;
        for _ in lines {
            places.push(Place::Held(0, 0))?;
            held.push(Seq::new(alloc))?;
        }
        let mut queue = Queue {
            places,
            held,
            coming: BTreeSet::new(alloc),
            ready: BTreeSet::new(alloc),
        };
        for line in lines {
            queue.file(lines, line.job)?;
        }
        Ok(queue)
    }

    /// All that a job waits for has started, and the last of it ends at this moment.
    fn come(&mut self, job: u32, due: u64) -> Result<(), NoMemory>
        requires { job < length self.old.places.items }
        ensures places { OnOk result (self.new.places.items
            ≡ slice_set self.old.places.items job (Place.Coming due)) }
        ensures held { self.new.held.items ≡ self.old.held.items }
        ensures ready { self.new.ready ≡ self.old.ready }
        ensures coming { OnOk result (Updates pairs self.old.coming self.new.coming (due, job) true) }
    {
        self.coming.insert((due, job))?;
        self.places[job as usize] = Place::Coming(due);
        Ok(())
    }

    /// The job waits for this one, of whose waits so many have started.
    fn hold(&mut self, wait: u32, job: u32, next: usize, due: u64) -> Result<(), NoMemory>
        requires job { job < length self.old.places.items }
        requires wait { wait < length self.old.held.items }
        ensures places { OnOk result (self.new.places.items
            ≡ slice_set self.old.places.items job (Place.Held next due)) }
        ensures held { OnOk result (self.new.held.items ≡ slice_set self.old.held.items wait
            (slice_index_or self.old.held.items wait [] ++ job ∷ [])) }
        ensures ready { self.new.ready ≡ self.old.ready }
        ensures coming { self.new.coming ≡ self.old.coming }
    {
        self.held[wait as usize].push(job)?;
        self.places[job as usize] = Place::Held(next, due);
        Ok(())
    }

    /// The job starts, and ends at this moment.
    pub fn start(&mut self, job: u32, end: u64)
        requires { job < length self.old.places.items }
        ensures places { self.new.places.items
            ≡ slice_set self.old.places.items job (Place.Started end) }
        ensures held { self.new.held.items ≡ self.old.held.items }
        ensures ready { self.new.ready ≡ self.old.ready }
        ensures coming { self.new.coming ≡ self.old.coming }
    {
        self.places[job as usize] = Place::Started(end);
    }

    /// Files a job anew, one of whose waits may have started. A wait is looked at once for each
    /// job.
    fn file(&mut self, lines: &[ReportLine], job: u32) -> Result<(), NoMemory>
        requires order { refusal lines.now ≡ None }
        requires known { job < length lines.now }
        requires synced { IsSynced lines.now self.old }
        requires loose { IsLoose lines.now self.old job }
        ensures synced { OnOk result (IsSynced lines.now self.new) }
        ensures filed { OnOk result (IsFiled lines.now self.new job) }
        ensures others { OnOk result ((j : ℕ) → IsFiled lines.now self.old j → IsFiled lines.now self.new j) }
        ensures loose { OnOk result ((j : ℕ) → IsLoose lines.now self.old j → IsLoose lines.now self.new j) }
        ensures starts { OnOk result (SameStarts self.old self.new) }
        ensures ready { OnOk result (SameReady self.old self.new) }
    {
        let Place::Held(next, due) = self.places[job as usize] else {
            return Ok(());
        };
        let waits = lines[job as usize].waits.items();
        let (next, due) = advance(self.places.as_slice(), waits, next, due);
        if next == waits.len() {
            self.come(job, due)
        } else {
            self.hold(waits[next], job, next, due)
        }
    }

    /// Files the jobs anew that a job holds up which has started.
    pub fn release(&mut self, alloc: Global, lines: &[ReportLine], job: u32) -> Result<(), NoMemory>
        requires order { refusal lines.now ≡ None }
        requires known { job < length lines.now }
        requires synced { IsSynced lines.now self.old }
        requires started { (end : ℕ) × HasStarted self.old.places.items end job }
        requires loose { (j : ℕ) → IsLoose lines.now self.old j }
        requires filed { (j : ℕ) → IsFiled lines.now self.old j
            ⊎ Any (λ x. x ≡ j) (get_or self.old.held.items job []) }
        ensures synced { OnOk result (IsSynced lines.now self.new) }
        ensures filed { OnOk result ((j : ℕ) → IsFiled lines.now self.new j) }
        ensures starts { OnOk result (SameStarts self.old self.new) }
        ensures ready { OnOk result (SameReady self.old self.new) }
    {
        let held = std::mem::replace(&mut self.held[job as usize], Seq::new(alloc));
        for next in held.items() {
            self.file(lines, *next)?;
        }
        Ok(())
    }

    /// The first moment at which a coming job is ready; `None` exactly where none is coming.
    pub fn first_due(&self) -> Option<u64>
        ensures some { IfSome result (λ r. (j : ℕ) × (contains pairs self.now.coming (r, j) ≡ true)) }
        ensures least { IfSome result (λ r. (x j : ℕ) → contains pairs self.now.coming (x, j) ≡ true → r ≤ x) }
        ensures none { IfNone result ((x j : ℕ) → contains pairs self.now.coming (x, j) ≡ false) }
    {
        let (due, _) = self.coming.first()?;
        Some(*due)
    }

    /// Makes the coming jobs ready whose moments have come.
    pub fn admit(&mut self, lines: &[ReportLine], moment: u64) -> Result<(), NoMemory>
        requires synced { IsSynced lines.now self.old }
        requires filed { (j : ℕ) → IsFiled lines.now self.old j }
        ensures synced { OnOk result (IsSynced lines.now self.new) }
        ensures filed { OnOk result ((j : ℕ) → IsFiled lines.now self.new j) }
        ensures starts { OnOk result (SameStarts self.old self.new) }
        ensures come { OnOk result (HasCome moment self.old self.new) }
        ensures later { OnOk result (AreLater moment self.new) }
    {
        while let Some((due, job)) = pop_due(&mut self.coming, moment) {
            self.ready.insert(job)?;
            self.places[job as usize] = Place::Ready(due);
        }
        Ok(())
    }
}

/// Takes out the first coming job, where its moment has come.
fn pop_due(coming: &mut BTreeSet<(u64, u32)>, moment: u64) -> Option<(u64, u32)>
    ensures was { IfSome result (λ p. contains pairs coming.old p ≡ true) }
    ensures due { IfSome result (λ p. p.0 ≤ moment) }
    ensures taken { IfSome result (λ p. Updates pairs coming.old coming.new p false) }
    ensures fewer { IfSome result (λ p. btree_set_len coming.new + 1 ≡ btree_set_len coming.old) }
    ensures none { IfNone result ((x j : ℕ) → contains pairs coming.old (x, j) ≡ true → moment < x) }
    ensures same { IfNone result (coming.new ≡ coming.old) }
{
    let (due, _) = coming.first()?;
    if *due > moment {
        return None;
    }
    coming.pop_first()
}
