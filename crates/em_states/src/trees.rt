//! Small trees, written as words.
ghost use Rattle.std.specs.Prelude.{◌≡◌, Some};
ghost use Rattle.std.specs.FinMap as map;
ghost use Rattle.em_path.specs.Paths.{IsPath, parent_text};
ghost use Rattle.em_tree.specs.declared.node.Kind.TheVariants as kind;
ghost use Rattle.em_tree.specs.Trees.{IsTree, kind_of};

use em_base::NoMemory;
use em_path::Path;
use em_tree::{Body, Kind, Node, Outcomes, State, Tree};
use std::alloc::Global;
use std::test::Fail;

/// Puts a node where there is none.
fn put(tree: &mut Tree, above: &Path, path: Path, node: Node) -> Result<(), NoMemory>
    requires tree { IsTree tree.old }
    requires path { IsPath path }
    requires parent { parent_text path ≡ Some above.now }
    requires dir { kind_of (map.get tree.old above.now) ≡ kind.Dir }
    requires absent { kind_of (map.get tree.old path) ≡ kind.Absent }
{
    em_tree::laws::law_put();
    tree.set(path, node)
}

/// Puts a node at an absent path of a directory that is there; elsewhere it fails.
fn add_at(alloc: Global, tree: &mut Tree, path: Path, node: Node) -> Result<(), Fail> {
    let Some(above) = path.parent(alloc)? else {
        return Err("the root".into());
    };
    let _ = path.text();
    if tree.kind(&above) == Kind::Dir && tree.kind(&path) == Kind::Absent {
        put(tree, &above, path, node)?;
        return Ok(());
    }
    Err("no place".into())
}

/// The path of a text; where it is none, a failure.
pub fn path(alloc: Global, text: &[u8]) -> Result<Path, Fail> {
    match Path::from_text(alloc, text)? {
        Some(path) => Ok(path),
        None => Err("no path".into()),
    }
}

/// Puts a node at the path of a text, right under a directory that is there; a failure where it
/// can't stand.
pub fn add(alloc: Global, tree: &mut Tree, text: &[u8], node: Node) -> Result<(), Fail> {
    let path = path(alloc, text)?;
    add_at(alloc, tree, path, node)
}

/// A file of these bytes with this stamp.
pub fn file(alloc: Global, bytes: &[u8], stamp: u64) -> Result<Node, NoMemory> {
    let body = Body::from_slice(alloc, bytes)?;
    Ok(Node::File { body, stamp })
}

fn add_word(alloc: Global, tree: &mut Tree, word: &[u8]) -> Result<(), Fail> {
    match word {
        [b'd', path @ ..] => add(alloc, tree, path, Node::Dir { stamp: 1 }),
        [b'f', path @ ..] => add(alloc, tree, path, file(alloc, b"", 1)?),
        [b'b', path @ ..] => add(alloc, tree, path, file(alloc, b"b\n", 1)?),
        [] => Ok(()),
        _ => Err("no word of a tree".into()),
    }
}

fn tree(alloc: Global, text: &str) -> Result<Tree, Fail> {
    let mut tree = Tree::new(alloc, 1)?;
    for word in text.split(' ') {
        add_word(alloc, &mut tree, word.as_bytes())?;
    }
    Ok(tree)
}

/// A state of a text of words like `d/a` and `f/a/x`: d a directory, f an empty file, b one that
/// holds `b` and a newline, then the path; the root is always there. A word that can't be placed is
/// a failure.
pub fn state(alloc: Global, text: &str) -> Result<State, Fail> {
    let tree = tree(alloc, text)?;
    let outcomes = Outcomes::new(alloc);
    Ok(State { tree, outcomes })
}

/// The states of these texts.
pub fn states(alloc: Global, texts: &[&str]) -> Result<Vec<State>, Fail> {
    let mut states = Vec::new(alloc);
    for text in texts {
        states.push(state(alloc, text)?)?;
    }
    Ok(states)
}
