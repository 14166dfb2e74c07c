//! Jobs whose prerequisites' outcomes are known, or asked for.
use super::makefiles::{NODES, job_of, outcomes_of, state_of};
use super::shows::shown;
use em_base::Text;
use em_steps::JobSteps;
use em_tree::State;
use em_view::PlainView;
use std::alloc::Global;
use std::test::Fail;

const MAKEFILE: &str = "all: a b | c\n\t@make x\n";

/// The letters of the outcomes that are known, if they are; those of the state's outcomes; what is
/// said and shown, with 90 units.
static ROWS: [(Option<&str>, &str, &str); 8] = [
    (Some("UCM"), "", "<x> / / 1 V=1\n|made 82"),
    (Some("UUU"), "FFF", "<x> / / 1 V=1\n|made 82"),
    (Some("UUF"), "UUU", "|skipped 87"),
    (Some("FUU"), "UUU", "|skipped 87"),
    // one is missing, or all
    (Some("UU"), "UUU", "|skipped 87"),
    (Some(""), "UUU", "|skipped 87"),
    (None, "UUU", "<x> / / 1 V=1\n|made 82"),
    (None, "UU", "|skipped 87"),
];

/// The job on its way.
fn begun(alloc: Global, state: &State, known: Option<&str>) -> Result<JobSteps, Fail> {
    let job = job_of(alloc, state, ' ')?;
    let known = match known {
        Some(letters) => Some(outcomes_of(alloc, letters)?),
        None => None,
    };
    Ok(JobSteps::begin(alloc, &job, known, 0)?)
}

fn shown_from(alloc: Global, known: Option<&str>, asked: &str) -> Result<Text, Fail> {
    let mut state = state_of(alloc, MAKEFILE, NODES)?;
    state.outcomes = outcomes_of(alloc, asked)?;
    let steps = begun(alloc, &state, known)?;
    shown(alloc, PlainView::new(&state), 90, steps, "0")
}

#[test]
fn known_outcomes_stand_for_those_of_the_desk(rt: HostRuntime) -> Result<(), Fail> {
    for (known, asked, want) in &ROWS {
        let shown = shown_from(rt.alloc(), *known, asked)?;
        assert!(rt; shown.bytes() == want.as_bytes(), "{asked}: {want}");
    }
    Ok(())
}
