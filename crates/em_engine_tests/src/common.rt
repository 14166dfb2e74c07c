//! What several of the tests are made of.
ghost use Rattle.std.specs.Prelude.{◌≡◌, [], IfOk};

use em_base::NoMemory;
use em_path::Path;
use em_tree::{Body, Node, Outcomes, State, Tree};
use std::alloc::{AllocError, Global};

/// The path of a text; a text that is none gives the root, which no row expects.
pub(crate) fn path(alloc: Global, text: &[u8]) -> Result<Path, NoMemory> {
    match Path::from_text(alloc, text)? {
        Some(path) => Ok(path),
        None => Ok(Path::root()),
    }
}

pub(crate) fn file(alloc: Global, bytes: &[u8], stamp: u64) -> Result<Node, NoMemory> {
    let body = Body::from_slice(alloc, bytes)?;
    Ok(Node::File { body, stamp })
}

/// A root with stamp 1, and no outcomes.
pub(crate) fn root(alloc: Global) -> Result<State, NoMemory>
    ensures { IfOk result (λ s. s.outcomes ≡ []) }
{
    Ok(State {
        tree: Tree::new(alloc, 1)?,
        outcomes: Outcomes::new(alloc),
    })
}

pub(crate) fn show_bytes(log: &mut String, bytes: &[u8]) -> Result<(), AllocError> {
    for byte in bytes {
        log.push(char::from(*byte))?;
    }
    Ok(())
}
