//! Small trees.

use em_base::NoMemory;
use em_states::{add, file};
use em_tree::{Node, Outcomes, State, Tree};
use std::alloc::Global;
use std::test::Fail;

/// A path, the bytes of a file or none of a directory, and the stamp.
pub(super) type NodeRow = (&'static [u8], Option<&'static [u8]>, u64);

fn node_of(alloc: Global, item: &NodeRow) -> Result<Node, NoMemory> {
    let stamp = item.2;
    match item.1 {
        Some(bytes) => file(alloc, bytes, stamp),
        None => Ok(Node::Dir { stamp }),
    }
}

fn tree(alloc: Global, items: &[NodeRow]) -> Result<Tree, Fail> {
    let mut tree = Tree::new(alloc, 1)?;
    for item in items {
        add(alloc, &mut tree, item.0, node_of(alloc, item)?)?;
    }
    Ok(tree)
}

/// A state of these, below the root.
pub(super) fn state(alloc: Global, items: &[NodeRow]) -> Result<State, Fail> {
    let tree = tree(alloc, items)?;
    let outcomes = Outcomes::new(alloc);
    Ok(State { tree, outcomes })
}
