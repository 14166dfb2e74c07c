//! Gates, and what they are told.
use em_engine::Front;
use em_run::Run;
use em_shared::Shared;
use em_testing::{Link, Linker, THREE, front_of, links_of, shared_of};
use em_workers::{Gate, rerun, work};
use std::alloc::{AllocError, Global};
use std::sync::{Mutex, Wait};
use std::test::Fail;

/// Publishes a run of job 0 before job 1 asks for this time.
#[derive(Drop)]
pub(super) struct Publisher<'a, R: Wait> {
    rt: &'a R,
    shared: &'a Shared<Link>,
    run: Mutex<Option<Run<Link>>>,
    step: u32,
}

impl<'a, R: Wait> Publisher<'a, R> {
    pub(super) fn new(
        rt: &'a R,
        shared: &'a Shared<Link>,
        run: Run<Link>,
        step: u32,
    ) -> Publisher<'a, R> {
        Publisher {
            rt,
            shared,
            run: Mutex::new(Some(run)),
            step,
        }
    }

    fn publish(&self) {
        let mut held = self.run.lock(self.rt);
        if let Some(run) = held.take() {
            let _ = self.shared.publish(self.rt, run);
        }
    }
}

impl<'a, R: Wait> Gate for Publisher<'a, R> {
    fn before(&self, _worker: u32, job: u32, step: u32) {
        if job == 1 && step == self.step {
            self.publish();
        }
    }
}

/// Keeps what it is told: of each ask the thread, the job and the number.
#[derive(Drop)]
struct Recorder<'a, R: Wait> {
    rt: &'a R,
    told: Mutex<Vec<(u32, u32, u32)>>,
}

impl<'a, R: Wait> Recorder<'a, R> {
    fn new(rt: &'a R, alloc: Global) -> Recorder<'a, R> {
        Recorder {
            rt,
            told: Mutex::new(Vec::new(alloc)),
        }
    }
}

impl<'a, R: Wait> Gate for Recorder<'a, R> {
    fn before(&self, worker: u32, job: u32, step: u32) {
        let mut told = self.told.lock(self.rt);
        let _ = told.push((worker, job, step));
    }
}

fn show_told(log: &mut String, told: &[(u32, u32, u32)]) -> Result<(), AllocError> {
    for (worker, job, step) in told {
        write!(log, "{worker} {job} {step}; ")?;
    }
    Ok(())
}

/// What the gate was told.
fn told_by<R: Wait>(rt: &R, alloc: Global, gate: &Recorder<'_, R>) -> Result<String, AllocError> {
    let mut log = String::new(alloc);
    let told = gate.told.lock(rt);
    show_told(&mut log, told.as_slice())?;
    Ok(log)
}

/// Runs the next job and commits it.
pub(super) fn rerun_one<G: Gate>(
    alloc: Global,
    front: &mut Front<Link>,
    gate: &G,
) -> Result<(), Fail> {
    if front.next().is_none() {
        return Err("no job".into());
    }
    let _done = rerun(alloc, front, &Linker, gate)?;
    Ok(())
}

/// Runs two jobs and commits them.
fn rerun_twice<G: Gate>(alloc: Global, gate: &G) -> Result<(), Fail> {
    let mut front = front_of(alloc, &THREE)?;
    rerun_one(alloc, &mut front, gate)?;
    rerun_one(alloc, &mut front, gate)
}

/// Runs three jobs as this worker.
fn work_through<R: Wait, G: Gate>(
    rt: &R,
    alloc: Global,
    worker: u32,
    gate: &G,
) -> Result<(), Fail> {
    let shared = shared_of(alloc, &THREE, true)?;
    let links = links_of(alloc, &THREE)?;
    work(rt, alloc, &shared, links.items(), worker, &Linker, gate);
    Ok(())
}

#[test]
fn a_gate_is_told_of_each_ask_of_the_committer(rt: HostRuntime) -> Result<(), Fail> {
    let gate = Recorder::new(&rt, rt.alloc());
    rerun_twice(rt.alloc(), &gate)?;
    let log = told_by(&rt, rt.alloc(), &gate)?;
    assert_eq!(rt;
        log.as_str(),
        "0 0 0; 0 0 1; 0 0 2; 0 0 3; 0 0 4; 0 1 0; 0 1 1; 0 1 2; 0 1 3; 0 1 4; "
    );
    Ok(())
}

#[test]
fn a_gate_is_told_of_each_ask_of_a_worker(rt: HostRuntime) -> Result<(), Fail> {
    let gate = Recorder::new(&rt, rt.alloc());
    work_through(&rt, rt.alloc(), 7, &gate)?;
    let log = told_by(&rt, rt.alloc(), &gate)?;
    assert_eq!(rt;
        log.as_str(),
        "7 0 0; 7 0 1; 7 0 2; 7 0 3; 7 0 4; \
         7 1 0; 7 1 1; 7 1 2; 7 1 3; 7 1 4; \
         7 2 0; 7 2 1; 7 2 2; 7 2 3; 7 2 4; "
    );
    Ok(())
}
