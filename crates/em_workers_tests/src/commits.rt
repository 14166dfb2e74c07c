//! The committer over a lender that lends what it is given.
ghost use Rattle.std.specs.Prelude.{All, IfOk, IfSome};
ghost use Rattle.em_shared.specs.Waited.{IsLent};

use super::gates::rerun_one;
use super::shows::show_settled;
use super::turns::run_lent;
use em_base::Seq;
use em_engine::{Front, Note, Taken};
use em_host::MemHost;
use em_testing::{
    Link, LinkPlan, Linker, THREE, front_of, run_at_root, run_of, show_bytes, show_notes,
};
use em_workers::{BuildNo, OpenGate, ScriptLender, commit_all};
use std::alloc::{AllocError, Global};
use std::test::Fail;

/// Five jobs, each of which reads the file of the one before. The first reads a file that isn't
/// there.
static FIVE: [(&str, &str); 5] = [
    ("/z", "/a"),
    ("/a", "/b"),
    ("/b", "/c"),
    ("/c", "/d"),
    ("/d", "/e"),
];

/// A front that has committed so many jobs of the plan.
fn front_behind(alloc: Global, plan: LinkPlan<'_>, jobs: u32) -> Result<Front<Link>, Fail> {
    let mut front = front_of(alloc, plan)?;
    for _ in 0..jobs {
        rerun_one(alloc, &mut front, &OpenGate)?;
    }
    Ok(front)
}

/// A run of job 2 over a root alone, where the file that it reads isn't there.
fn stale(alloc: Global) -> Result<Option<Taken<Link>>, Fail>
    ensures { IfOk result (λ t. IfSome t IsLent) }
{
    let run = run_at_root(alloc, &FIVE, 2)?;
    Ok(run_lent(alloc, run, 5)?)
}

/// A run of job 3 over what the jobs before it leave.
fn agreeing(alloc: Global) -> Result<Option<Taken<Link>>, Fail>
    ensures { IfOk result (λ t. IfSome t IsLent) }
{
    let front = front_behind(alloc, &FIVE, 3)?;
    let run = run_of(alloc, &FIVE, 3, front.state())?;
    Ok(run_lent(alloc, run, 5)?)
}

/// Nothing of job 0, what was given up of job 1, and these of the next two.
fn lends_of(
    alloc: Global,
    third: Option<Taken<Link>>,
    fourth: Option<Taken<Link>>,
) -> Result<Vec<Option<Taken<Link>>>, AllocError>
    requires third { IfSome third IsLent }
    requires fourth { IfSome fourth IsLent }
    ensures { IfOk result (λ v. All (λ o. IfSome o IsLent) v.items) }
{
    Ok(vec![in alloc; None, Some(Taken::GivenUp), third, fourth]?)
}

/// Lends nothing of job 0, what was given up of job 1, a stale run of job 2 and an agreeing one of
/// job 3.
fn script(alloc: Global) -> Result<ScriptLender<Link>, Fail> {
    let third = stale(alloc)?;
    let fourth = agreeing(alloc)?;
    let lends = lends_of(alloc, third, fourth)?;
    Ok(ScriptLender::new(alloc, lends))
}

/// Commits the front's jobs, and gives the notes.
fn notes_of(
    alloc: Global,
    front: &mut Front<Link>,
    lender: &mut ScriptLender<Link>,
    host: &mut MemHost,
) -> Result<Seq<Note>, BuildNo> {
    commit_all(alloc, lender, front, &Linker, &OpenGate, host)
}

/// The notes, or that the host failed.
fn show_end(log: &mut String, end: Result<Seq<Note>, BuildNo>) -> Result<(), AllocError> {
    match end {
        Ok(notes) => show_notes(log, notes.items()),
        Err(BuildNo::Host) => log.push_str("host "),
        Err(BuildNo::NoMemory) => log.push_str("memory "),
    }
}

fn commit_plan(
    alloc: Global,
    plan: LinkPlan<'_>,
    lender: &mut ScriptLender<Link>,
    host: &mut MemHost,
    log: &mut String,
) -> Result<(), Fail> {
    let mut front = front_of(alloc, plan)?;
    let end = notes_of(alloc, &mut front, lender, host);
    Ok(show_end(log, end)?)
}

/// What was settled, whether the lender was stopped, and what was printed.
fn show_told(
    log: &mut String,
    lender: &ScriptLender<Link>,
    printed: &[u8],
) -> Result<(), AllocError> {
    log.push_str("| ")?;
    show_settled(log, lender.settled())?;
    log.push_str(if lender.stopped() { "stopped " } else { "on " })?;
    show_bytes(log, printed)
}

/// What comes of the plan's jobs, by this lender on this host.
fn show_committed(
    alloc: Global,
    plan: LinkPlan<'_>,
    lender: &mut ScriptLender<Link>,
    host: &mut MemHost,
    log: &mut String,
) -> Result<(), Fail> {
    commit_plan(alloc, plan, lender, host, log)?;
    Ok(show_told(log, lender, host.printed())?)
}

fn commit_five(alloc: Global, log: &mut String) -> Result<(), Fail> {
    let mut lender = script(alloc)?;
    let mut host = MemHost::new(alloc);
    show_committed(alloc, &FIVE, &mut lender, &mut host, log)
}

#[test]
fn all_that_is_lent_is_committed_in_order(rt: HostRuntime) -> Result<(), Fail> {
    let mut log = String::new(rt.alloc());
    commit_five(rt.alloc(), &mut log)?;
    assert_eq!(rt;
        log.as_str(),
        "0 in 1; 1 in 2 memory; 2 in 2 differ 1: content of /b was no content is /a/b after 1; \
         3 in 1; 4 in 1; \
         | 0 made / /a; 1 made / /b; 2 made / /c; 3 made / /d; 4 made / /e; \
         stopped /a/a/b/a/b/c/a/b/c/d/a/b/c/d/e"
    );
    Ok(())
}

/// A host whose second print fails.
fn failing(alloc: Global) -> Result<MemHost, Fail> {
    let mut host = MemHost::new(alloc);
    host.fail_at(1)?;
    Ok(host)
}

fn commit_failing(alloc: Global, log: &mut String) -> Result<(), Fail> {
    let mut host = failing(alloc)?;
    let mut lender = ScriptLender::new(alloc, Vec::new(alloc));
    show_committed(alloc, &THREE, &mut lender, &mut host, log)
}

#[test]
fn a_host_that_fails_ends_the_commits(rt: HostRuntime) -> Result<(), Fail> {
    let mut log = String::new(rt.alloc());
    commit_failing(rt.alloc(), &mut log)?;
    assert_eq!(rt; log.as_str(), "host | 0 made / /a; stopped /a");
    Ok(())
}
