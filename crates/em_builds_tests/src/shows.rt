//! What a build comes to, as a text.
use em_path::Path;
use em_testing::{show_bytes, show_outcome, show_path};
use em_tree::{Node, State};
use em_workers::Built;
use std::alloc::AllocError;

/// A directory with its stamp, a file with what it holds, or a link with what it says, and its
/// stamp.
fn show_file(log: &mut String, path: &Path, node: &Node) -> Result<(), AllocError> {
    show_path(log, "", path)?;
    let stamp = match node {
        Node::File { body, stamp } => {
            log.push_str("=")?;
            show_bytes(log, body.bytes())?;
            stamp
        }
        Node::Dir { stamp } => stamp,
        Node::Link { text, stamp } => {
            log.push_str(" to ")?;
            show_bytes(log, text.bytes())?;
            stamp
        }
    };
    write!(log, "@{stamp} ")
}

/// The directories and files of a state.
fn show_files(log: &mut String, state: &State) -> Result<(), AllocError> {
    for (path, node) in state.tree.nodes() {
        show_file(log, path, node)?;
    }
    Ok(())
}

/// How the jobs of a state ended.
fn show_outcomes(log: &mut String, state: &State) -> Result<(), AllocError> {
    for outcome in state.outcomes.items() {
        show_outcome(log, outcome)?;
        log.push_str(" ")?;
    }
    Ok(())
}

fn show_fuel(log: &mut String, fuel: &[u64]) -> Result<(), AllocError> {
    for used in fuel {
        write!(log, "{used} ")?;
    }
    Ok(())
}

/// What was printed, and then the directories and files, how the jobs ended, and the fuel of each.
pub(super) fn show_built(
    log: &mut String,
    printed: &[u8],
    built: &Built,
) -> Result<(), AllocError> {
    show_bytes(log, printed)?;
    log.push_str(" ")?;
    show_files(log, &built.state)?;
    show_outcomes(log, &built.state)?;
    show_fuel(log, built.fuel.items())
}
