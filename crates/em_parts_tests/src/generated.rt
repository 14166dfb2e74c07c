use em_gen::project;
use em_tree::{Node, Tree};
use std::test::Fail;

/// Whether the node is a file of the stamp 1 at this path, of these bytes.
fn is_file(tree: &Tree, i: usize, path: &[u8], bytes: &[u8]) -> bool {
    match tree.at(i) {
        Some((p, Node::File { body, stamp })) => {
            p.text() == path && body.bytes() == bytes && *stamp == 1
        }
        _ => false,
    }
}

/// Whether the tree has a root of the stamp 1 and these files alone.
fn is_root_and(tree: &Tree, files: &[(&[u8], &[u8])]) -> bool {
    let root = match tree.at(0) {
        Some((p, Node::Dir { stamp })) => p.text() == b"/".as_slice() && *stamp == 1,
        _ => false,
    };
    root && tree.at(files.len() + 1).is_none()
        && files
            .iter()
            .enumerate()
            .all(|(i, (path, bytes))| is_file(tree, i + 1, path, bytes))
}

#[test]
fn projects_have_their_nodes(rt: HostRuntime) -> Result<(), Fail> {
    let one: [(&[u8], &[u8]); 2] = [
        (b"/Makefile", b"all: t0\nt0:\n\tcat s0 > t0\n"),
        (b"/s0", b"0\n"),
    ];
    assert!(rt; is_root_and(&project(rt.alloc(), 1)?, &one));
    let three: [(&[u8], &[u8]); 4] = [
        (
            b"/Makefile",
            b"all: t0 t1 t2\nt0:\n\tcat s0 > t0\nt1:\n\tcat s1 t0 > t1\nt2:\n\tcat s2 t0 > t2\n",
        ),
        (b"/s0", b"0\n"),
        (b"/s1", b"1\n"),
        (b"/s2", b"2\n"),
    ];
    assert!(rt; is_root_and(&project(rt.alloc(), 3)?, &three));
    Ok(())
}
