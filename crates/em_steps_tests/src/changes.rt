//! A job over a view whose answers change.
use super::makefiles::{NODES, job_of, state_of};
use super::shows::shown;
use em_base::Text;
use em_steps::JobSteps;
use em_tree::State;
use em_view::ScriptView;
use std::alloc::Global;
use std::test::Fail;

const MAKEFILE: &str = "all:\n\tcd d && make x\n\tls d\n";

/// How many questions are answered while there is a `/d`, two for each path; what is said and
/// shown, with 90 units. `/d` is asked for by `cd`, as the make's directory, and by `ls`.
static ROWS: [(usize, &str); 3] = [
    (
        2,
        "cd d && make x\nemake: *** d: no such directory.  Stop.\n\
         emake: *** [Makefile:2: all] Error 2\n|failed 2 86",
    ),
    (
        4,
        "cd d && make x\nemake: *** .: no such directory.  Stop.\n\
         emake: *** [Makefile:2: all] Error 2\n|failed 2 85",
    ),
    (
        6,
        "cd d && make x\n<x> /d /d 1 V=1\nls d\nemake: ls: d: absent\n\
         emake: *** [Makefile:3: all] Error 1\n|failed 1 82",
    ),
];

/// So many states with a `/d`, and one without.
fn script(alloc: Global, count: usize) -> Result<Vec<State>, Fail> {
    let mut states = Vec::new(alloc);
    for _ in 0..count {
        states.push(state_of(alloc, MAKEFILE, NODES)?)?;
    }
    states.push(state_of(alloc, MAKEFILE, "")?)?;
    Ok(states)
}

fn shown_over(alloc: Global, states: Vec<State>) -> Result<Text, Fail> {
    if states.is_empty() {
        return Err("no state".into());
    }
    let view = ScriptView::new(states);
    let state = state_of(alloc, MAKEFILE, NODES)?;
    let job = job_of(alloc, &state, ' ')?;
    let steps = JobSteps::begin(alloc, &job, None, 0)?;
    shown(alloc, view, 90, steps, "0")
}

#[test]
fn each_question_is_put_anew(rt: HostRuntime) -> Result<(), Fail> {
    for (count, want) in &ROWS {
        let states = script(rt.alloc(), *count)?;
        let shown = shown_over(rt.alloc(), states)?;
        assert!(rt; shown.bytes() == want.as_bytes(), "{count}");
    }
    Ok(())
}
