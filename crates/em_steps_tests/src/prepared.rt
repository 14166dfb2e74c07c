//! What a job does before its recipe runs, where its prerequisites' outcomes are known.
use super::makefiles::{NODES, job_of, outcomes_of, state_of};
use super::shows::name_of;
use em_base::{Fuel, Seq, Text};
use em_expand::Spoken;
use em_job::{JobStop, Prepared, prepare_job};
use em_view::{Desk, PlainView};
use std::alloc::Global;
use std::test::Fail;

/// All three are there, and are equally old.
const MAKEFILE: &str = "t: a | b\n\t@echo\n";

/// The letter of the order's option, the letters of the outcomes that are known, the units; what
/// comes of it, and the units that are left.
static ROWS: [(char, &str, u64, &str, u64); 9] = [
    (' ', "UU", 9, "up to date", 5),
    (' ', "MM", 9, "up to date", 5),
    (' ', "CU", 9, "to run", 5),
    (' ', "UC", 9, "up to date", 5),
    ('n', "MU", 9, "to run", 5),
    ('n', "UM", 9, "up to date", 5),
    (' ', "FU", 9, "skipped", 7),
    (' ', "U", 9, "skipped", 7),
    (' ', "UU", 1, "spent early", 0),
];

fn end_of(prepared: &Result<Prepared, JobStop>) -> &'static str {
    match prepared {
        Ok(Prepared::Ended(outcome)) => name_of(outcome),
        Ok(Prepared::Lines(_, _)) => "to run",
        Err(JobStop::Early) => "spent early",
        Err(_) => "stopped",
    }
}

/// What comes of the job, and the units that are left of these.
fn prepared_with(
    alloc: Global,
    letter: char,
    known: &str,
    units: u64,
) -> Result<(&'static str, u64), Fail> {
    let state = state_of(alloc, MAKEFILE, NODES)?;
    let job = job_of(alloc, &state, letter)?;
    let known = outcomes_of(alloc, known)?;
    let view = PlainView::new(&state);
    let mut desk = Desk::new(alloc, view, 5, 0, Fuel::new(units.min(9)));
    let mut spoken = Spoken {
        said: Text::new(alloc),
        evals: Seq::new(alloc),
    };
    let known = Some(known.items());
    let prepared = prepare_job(alloc, &mut desk, &mut spoken, known, job.get());
    Ok((end_of(&prepared), desk.left()))
}

#[test]
fn known_outcomes_decide(rt: HostRuntime) -> Result<(), Fail> {
    for (letter, known, units, want, left) in &ROWS {
        let found = prepared_with(rt.alloc(), *letter, known, *units)?;
        assert!(rt; found.0 == *want, "{letter}{known}");
        assert!(rt; found.1 == *left, "{letter}{known}");
    }
    Ok(())
}
