//! Which jobs may be claimed.
ghost use Rattle.std.specs.Prelude.{◌≡◌, ◌↔◌, ◌==◌, ◌+◌, ℕ, ◌<◌, ◌≤◌, ◌^◌, ◌⊎◌, [], true, false, not, IsTrue, IfOk, OnOk, All, length, map, replicate, slice_get, slice_set, slice_index_or, Some, if◌then◌else◌};
ghost use Rattle.em_engine.specs.declared.ready.JobStage.TheVariants as stage;
ghost use Rattle.em_engine.specs.Stages.{is_over, is_free, Finds};
ghost use Rattle.em_engine.specs.Waits.{times, flag, IsMarked};

use crate::flags::FlagTree;
use em_base::{NoMemory, Seq};
use std::alloc::Global;
use std::marker::Model;

/// What the journal says of a job.
#[derive(Clone, Copy, Debug, PartialEq, Eq)]
pub enum JobStage {
    Free,
    Claimed,
    Ended,
    Settled,
}

/// What a worker is to do.
#[derive(Clone, Copy, Debug, PartialEq, Eq)]
pub enum Claim {
    /// To run this job.
    Job(u32),
    /// To end: the board is stopped, or no job is free.
    Done,
    /// To wait until a job ends.
    NotYet,
}

/// The jobs that each job waits for, and the stage of each. A job that ends is taken off the waits
/// of those that wait for it, and the jobs that can be claimed are flagged, so that the least of
/// them is found without a look at the others. All but `new` take no memory.
#[derive(Drop)]
pub struct WaitingJobs {
    waits: Seq<Seq<u32>>,
    stages: Vec<JobStage>,
    /// For each job how many of its waits haven't ended.
    left: Vec<usize>,
    /// For each job those that wait for it, each as often as it does.
    waiters: Vec<Seq<u32>>,
    /// Which jobs can be claimed.
    flagged: FlagTree,
    /// How many jobs are free.
    free: usize,
}

impl Model for WaitingJobs {
    ghost use Rattle.em_engine.specs.Stages.{Waiting};
    ghost use Rattle.em_engine.specs.Waits.{IsReady};

    ghost Value = { Waiting };

    ghost view = { λ r. record { waits = r.waits; stages = r.stages.items } };

    ghost invariant = { λ r. IsReady (record {
      waits = r.waits;
      stages = r.stages.items;
      left = r.left.items;
      waiters = r.waiters.items;
      flagged = r.flagged;
      free = r.free;
    }) };
}

impl WaitingJobs {
    /// All jobs are free. Steps for each job and each of its waits.
    pub fn new(alloc: Global, waits: Seq<Seq<u32>>) -> Result<WaitingJobs, NoMemory>
        requires small { length waits < 2 ^ 32 }
        requires lower { (j : ℕ) → All (λ k. k < j) (slice_index_or waits j []) }
        ensures { IfOk result (λ r. r
            ≡ record { waits = waits; stages = replicate (length waits) stage.Free }) }
    {
        let stages = vec![in alloc; JobStage::Free; waits.len()]?;
        let left = counts_of(alloc, waits.items())?;
        let waiters = waiters_of(alloc, waits.items())?;
        let mut flagged = FlagTree::new(alloc, waits.len())?;
        raise_all(&mut flagged, left.as_slice());
        let free = waits.len();
        Ok(WaitingJobs {
            waits,
            stages,
            left,
            waiters,
            flagged,
            free,
        })
    }

    /// The least job that can be claimed, in steps for the logarithm of how many jobs there are;
    /// else whether a job is free.
    pub fn least(&self) -> Claim
        ensures { Finds self.now result }
    {
        match self.flagged.first() {
            Some(job) => Claim::Job(job as u32),
            None => {
                if self.free == 0 {
                    Claim::Done
                } else {
                    Claim::NotYet
                }
            }
        }
    }

    /// A free job is claimed. Steps for the logarithm of how many jobs there are.
    pub fn claim(&mut self, job: u32)
        requires { slice_get self.old.stages job ≡ Some stage.Free }
        ensures { self.new
            ≡ record self.old { stages = slice_set self.old.stages job stage.Claimed } }
    {
        self.stages[job as usize] = JobStage::Claimed;
        self.flagged.put(job as usize, false);
        self.free -= 1;
    }

    /// A claimed job has ended. Steps for each job that waits for it.
    pub fn end(&mut self, job: u32)
        requires { slice_get self.old.stages job ≡ Some stage.Claimed }
        ensures { self.new
            ≡ record self.old { stages = slice_set self.old.stages job stage.Ended } }
    {
        self.finish(job, JobStage::Ended);
    }

    /// A job that is claimed or has ended is settled; where it is claimed it ends so, in steps for
    /// each job that waits for it.
    pub fn settle(&mut self, job: u32)
        requires { (slice_get self.old.stages job ≡ Some stage.Claimed)
            ⊎ (slice_get self.old.stages job ≡ Some stage.Ended) }
        ensures { self.new
            ≡ record self.old { stages = slice_set self.old.stages job stage.Settled } }
    {
        if self.is_claimed(job) {
            self.finish(job, JobStage::Settled);
        } else {
            self.close(job);
        }
    }

    fn is_claimed(&self, job: u32) -> bool
        ensures { IsTrue result ↔ (slice_get self.now.stages job ≡ Some stage.Claimed) }
    {
        match self.stages.get(job as usize) {
            Some(JobStage::Claimed) => true,
            _ => false,
        }
    }

    /// A job that has ended is settled.
    fn close(&mut self, job: u32)
        requires { slice_get self.old.stages job ≡ Some stage.Ended }
        ensures { self.new
            ≡ record self.old { stages = slice_set self.old.stages job stage.Settled } }
    {
        self.stages[job as usize] = JobStage::Settled;
    }

    /// A claimed job comes to its end: it is taken off the waits of the jobs that wait for it.
    fn finish(&mut self, job: u32, end: JobStage)
        requires running { slice_get self.old.stages job ≡ Some stage.Claimed }
        requires over { is_over (Some end) ≡ true }
        ensures { self.new ≡ record self.old { stages = slice_set self.old.stages job end } }
    {
        self.stages[job as usize] = end;
        release(
            self.waiters[job as usize].items(),
            self.stages.as_slice(),
            self.left.as_mut_slice(),
            &mut self.flagged,
        );
    }
}

/// How many jobs each one waits for.
fn counts_of(alloc: Global, waits: &[Seq<u32>]) -> Result<Vec<usize>, NoMemory>
    ensures { IfOk result (λ v. v.items ≡ map length waits.now) }
{
    let mut left = Vec::with_capacity(alloc, waits.len())?;
    for jobs in waits {
        left.push(jobs.len())?;
    }
    Ok(left)
}

/// Which jobs wait for each one.
fn waiters_of(alloc: Global, waits: &[Seq<u32>]) -> Result<Vec<Seq<u32>>, NoMemory>
    requires small { length waits.now < 2 ^ 32 }
    requires lower { (j : ℕ) → All (λ k. k < j) (slice_index_or waits.now j []) }
    ensures count { IfOk result (λ v. length v.items ≡ length waits.now) }
    ensures each { IfOk result (λ v. (j k : ℕ)
        → times j (slice_index_or v.items k []) ≡ times k (slice_index_or waits.now j [])) }
{
    let mut waiters = no_lists(alloc, waits.len())?;
    for job in 0..waits.len() {
        note_waiter(waiters.as_mut_slice(), job as u32, waits[job].items())?;
    }
    Ok(waiters)
}

fn no_lists(alloc: Global, count: usize) -> Result<Vec<Seq<u32>>, NoMemory>
    ensures { IfOk result (λ v. v.items ≡ replicate count []) }
{
    let mut lists = Vec::new(alloc);
    for _ in 0..count {
        lists.push(Seq::new(alloc))?;
    }
    Ok(lists)
}

/// The job waits for each of these.
fn note_waiter(waiters: &mut [Seq<u32>], job: u32, jobs: &[u32]) -> Result<(), NoMemory>
    requires { All (λ k. k < length waiters.old) jobs.now }
    ensures { OnOk result ((j k : ℕ) → times j (slice_index_or waiters.new k [])
        ≡ times j (slice_index_or waiters.old k []) + (if job == j then times k jobs.now else 0)) }
{
    for k in jobs {
        waiters[*k as usize].push(job)?;
    }
    Ok(())
}

/// Raises the flags of the jobs that wait for none.
fn raise_all(flagged: &mut FlagTree, left: &[usize])
    requires room { length left.now ≤ length flagged.old }
    requires down { (j : ℕ) → flag flagged.old j ≡ false }
    ensures room { length flagged.new ≡ length flagged.old }
    ensures flags { (j : ℕ) → flag flagged.new j ≡ (slice_index_or left.now j 1 == 0) }
{
    for job in 0..left.len() {
        flagged.put(job, left[job] == 0);
    }
}

/// One job less is waited for by each of these; those that may be claimed now are flagged.
fn release(jobs: &[u32], stages: &[JobStage], left: &mut [usize], flagged: &mut FlagTree)
    requires within { All (λ j. j < length left.old) jobs.now }
    requires room { length left.old ≤ length flagged.old }
    requires enough { (j : ℕ) → times j jobs.now ≤ slice_index_or left.old j 0 }
    requires marked { IsMarked stages.now left.old flagged.old }
    ensures left { (j : ℕ)
        → slice_index_or left.new j 0 + times j jobs.now ≡ slice_index_or left.old j 0 }
    ensures room { length flagged.new ≡ length flagged.old }
    ensures marked { IsMarked stages.now left.new flagged.new }
{
    for job in jobs {
        let at = *job as usize;
        left[at] -= 1;
        let free = is_free(stages, at);
        let done = left[at] == 0;
        flagged.put(at, free & done);
    }
}

/// Whether the job is free.
fn is_free(stages: &[JobStage], job: usize) -> bool
    ensures { result ≡ is_free (slice_get stages.now job) }
{
    match stages.get(job) {
        Some(JobStage::Free) => true,
        _ => false,
    }
}
