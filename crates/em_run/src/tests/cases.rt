//! The runs of the small job over trees with the root alone.
use super::*;
use em_tree::{Node, Outcomes, State, Tree};
use em_view::PlainView;
use std::test::Fail;

fn state(alloc: Global) -> Result<State, NoMemory> {
    Ok(State {
        tree: Tree::new(alloc, 1)?,
        outcomes: Outcomes::new(alloc),
    })
}

fn mark_of(alloc: Global, path: &str, fuel: u16) -> Result<Mark, Fail> {
    let path = Path::from_text(alloc, path.as_bytes())?.ok_or("no path")?;
    Ok(Mark { job: 2, fuel, path })
}

/// Through the bounds.
fn run_of<S: Spec, W: Work<S>, V: View>(
    alloc: Global,
    work: &W,
    spec: &S,
    view: V,
) -> Result<Run<S>, NoMemory> {
    work.run(alloc, spec, view)
}

/// The run of the job over a tree with the root alone.
fn run_at_root(alloc: Global, spec: &Mark) -> Result<Run<Mark>, NoMemory> {
    let state = state(alloc)?;
    run_of(alloc, &Marker, spec, PlainView::new(&state))
}

/// What may be handed from thread to thread.
fn crosses<T: Send + Sync>(_value: &T) {}

fn run_crosses<S: Spec + Send + Sync>(run: &Run<S>) {
    crosses(run);
    crosses(run.spec());
}

/// A job's path and fuel; what its run says, how it ends, the fuel that it takes, and how many
/// questions it asks.
type Row = (&'static str, u16, &'static str, char, u64, usize);

const ROWS: [Row; 6] = [
    ("/a", 20, "made", 'M', 3, 5),
    ("/", 20, "there", 'U', 1, 1),
    ("/a/b", 20, "made", 'F', 1, 7),
    ("/a", 2, "made", 'S', 2, 5),
    ("/a", 1, "made", 'S', 1, 2),
    ("/a", 0, "", 'S', 0, 0),
];

fn letter(outcome: &Outcome) -> char {
    match outcome {
        Outcome::Made => 'M',
        Outcome::Upto => 'U',
        Outcome::Failed(1) => 'F',
        Outcome::Spent => 'S',
        _ => '-',
    }
}

fn is_row(run: &Run<Mark>, asked: usize, row: &Row) -> bool {
    run.output().bytes() == row.2.as_bytes()
        && letter(run.outcome()) == row.3
        && run.fuel() == row.4
        && asked == row.5
}

fn gives_row(alloc: Global, row: &Row) -> Result<bool, Fail> {
    let spec = mark_of(alloc, row.0, row.1)?;
    let run = run_at_root(alloc, &spec)?;
    let asked = run.usage().entries(alloc)?.len();
    Ok(is_row(&run, asked, row))
}

#[test]
fn a_run_holds_what_its_job_did(rt: HostRuntime) -> Result<(), Fail> {
    for row in &ROWS {
        let is_given = gives_row(rt.alloc(), row)?;
        let path = row.0;
        assert!(rt; is_given, "{path} {}", row.1);
    }
    Ok(())
}

/// The file that the job made has the stamp of its first change, and so has the root.
fn has_made(run: &Run<Mark>, path: &Path) -> bool {
    let node = run.delta().get(path);
    run.delta().len() == 2
        && matches!(node, Some(Some(Node::File { stamp, .. })) if *stamp == 100 + 2 * 1_048_576 + 1)
}

#[test]
fn a_run_has_its_spec_and_its_changes(rt: HostRuntime) -> Result<(), Fail> {
    let spec = mark_of(rt.alloc(), "/a", 20)?;
    let run = run_at_root(rt.alloc(), &spec)?;
    run.valid();
    run_crosses(&run);
    assert!(rt; *run.spec() == spec && run.spec().job() == 2);
    assert!(rt; has_made(&run, &spec.path));
    Ok(())
}

fn are_parts(parts: &Parts<Mark>, spec: &Mark) -> bool {
    parts.spec == *spec
        && parts.output.bytes() == b"made".as_slice()
        && parts.outcome == Outcome::Made
        && parts.delta.len() == 2
        && parts.fuel == 3
}

#[test]
fn the_parts_of_a_run_are_what_it_holds(rt: HostRuntime) -> Result<(), Fail> {
    let spec = mark_of(rt.alloc(), "/a", 20)?;
    let parts = run_at_root(rt.alloc(), &spec)?.into_parts();
    assert!(rt; are_parts(&parts, &spec));
    Ok(())
}

#[test]
fn a_failed_job_ends_the_serial_run(rt: HostRuntime) -> Result<(), Fail> {
    let spec = mark_of(rt.alloc(), "/a", 20)?.copy(rt.alloc())?;
    assert!(rt; spec.ends(&Outcome::Failed(1)));
    assert!(rt; !spec.ends(&Outcome::Made));
    Ok(())
}
