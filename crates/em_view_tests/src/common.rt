//! What the tests are made of.

use em_base::NoMemory;
use em_path::Path;
use em_tree::{Body, Node};
use std::alloc::{AllocError, Global};

/// The path of a text; a text that is none gives the root, which no row expects.
pub(crate) fn path(alloc: Global, text: &[u8]) -> Result<Path, NoMemory> {
    match Path::from_text(alloc, text)? {
        Some(path) => Ok(path),
        None => Ok(Path::root()),
    }
}

pub(crate) fn file(alloc: Global, bytes: &[u8], stamp: u64) -> Result<Node, NoMemory> {
    let body = Body::from_slice(alloc, bytes)?;
    Ok(Node::File { body, stamp })
}

pub(crate) fn show_bytes(log: &mut String, bytes: &[u8]) -> Result<(), AllocError> {
    for byte in bytes {
        log.push(char::from(*byte))?;
    }
    Ok(())
}
