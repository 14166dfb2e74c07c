//! The limits of what is written, each at its last value and one above.
use super::*;
use em_base::NoMemory;
use em_states::{add, file};
use em_tree::Node;

/// A file of so many bytes.
fn sized(alloc: Global, size: usize) -> Result<Node, NoMemory> {
    let bytes = vec![in alloc; b'x'; size]?;
    file(alloc, &bytes, 0)
}

/// The tree with one file more.
fn add_file(alloc: Global, tree: &mut Tree, name: &[u8], size: usize) -> Result<(), Fail> {
    let node = sized(alloc, size)?;
    add(alloc, tree, name, node)
}

/// The stamp of the root; the files with their sizes; how long the image is, or which limit forbids
/// it.
struct Row {
    base: u64,
    files: &'static [(&'static [u8], usize)],
    wanted: Result<usize, Which>,
}

const ROWS: [Row; 8] = [
    Row {
        base: 0,
        files: &[(b"/a", 16_777_216)],
        wanted: Ok(16_777_250),
    },
    Row {
        base: 0,
        files: &[(b"/a", 16_777_216), (b"/b", 16_777_217)],
        wanted: Err(Which::File),
    },
    // Head, root and end line have 17 bytes, and each of the four files has 17 beside its own.
    Row {
        base: 0,
        files: &[
            (b"/a", 16_777_216),
            (b"/b", 16_777_216),
            (b"/c", 16_777_216),
            (b"/d", 16_777_131),
        ],
        wanted: Ok(67_108_864),
    },
    Row {
        base: 0,
        files: &[
            (b"/a", 16_777_216),
            (b"/b", 16_777_216),
            (b"/c", 16_777_216),
            (b"/d", 16_777_132),
        ],
        wanted: Err(Which::Image),
    },
    // The last stamp has 19 digits.
    Row {
        base: 1 << 62,
        files: &[],
        wanted: Ok(35),
    },
    Row {
        base: (1 << 62) + 1,
        files: &[],
        wanted: Err(Which::Stamp),
    },
    // Files are judged before stamps, and the image before both.
    Row {
        base: (1 << 62) + 1,
        files: &[(b"/a", 16_777_217)],
        wanted: Err(Which::File),
    },
    Row {
        base: (1 << 62) + 1,
        files: &[
            (b"/a", 16_777_217),
            (b"/b", 16_777_217),
            (b"/c", 16_777_217),
            (b"/d", 16_777_217),
        ],
        wanted: Err(Which::Image),
    },
];

fn tree_of(alloc: Global, row: &Row) -> Result<Tree, Fail> {
    let mut tree = Tree::new(alloc, row.base)?;
    for (name, size) in row.files {
        add_file(alloc, &mut tree, name, *size)?;
    }
    Ok(tree)
}

/// Whether the image is as long as wanted, or is refused for the limit that is wanted.
fn is_written(alloc: Global, tree: &Tree, wanted: Result<usize, Which>) -> bool {
    match (write_image(alloc, tree), wanted) {
        (Ok(text), Ok(length)) => text.bytes().len() == length,
        (Err(no), Err(which)) => no == ImageNo::Limit { which, at: 0 },
        _ => false,
    }
}

#[test]
fn each_limit_has_its_last_value(rt: HostRuntime) -> Result<(), Fail> {
    for row in &ROWS {
        let tree = tree_of(rt.alloc(), row)?;
        assert!(rt; is_written(rt.alloc(), &tree, row.wanted));
    }
    Ok(())
}

/// Whether the tree with one file more has too many nodes.
fn is_full(alloc: Global, tree: &Tree, size: usize) -> Result<bool, Fail> {
    let mut above = tree.copy()?;
    add_file(alloc, &mut above, b"/z", size)?;
    Ok(is_written(alloc, &above, Err(Which::Nodes)))
}

/// The tree of the root and 99,999 more directories.
fn full(alloc: Global) -> Result<Tree, Fail> {
    let text = directories(alloc, 100_001, 200_000)?;
    Ok(read_image(alloc, text.as_bytes())?)
}

#[test]
fn one_hundred_thousand_nodes_are_the_most(rt: HostRuntime) -> Result<(), Fail> {
    let tree = full(rt.alloc())?;
    assert_eq!(rt; tree.count(), 100_000);
    assert!(rt; write_image(rt.alloc(), &tree).is_ok());
    // Nodes are judged before files.
    for size in [0, 16_777_217] {
        assert!(rt; is_full(rt.alloc(), &tree, size)?);
    }
    Ok(())
}
