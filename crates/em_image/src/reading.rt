//! Reading an image from the left.
ghost use Rattle.std.specs.Prelude.{◌≡◌, ◌-◌, ◌<◌, ◌≤◌, ◌||◌, ◌==◌, ℕ, List, length, true, false, if◌then◌else◌, nat_lt, IfOk, Ok, Err, Some, None};
ghost use Rattle.std.specs.List.{position};
ghost use Rattle.em_image.specs.declared.no.ImageNo.TheVariants as no;
ghost use Rattle.em_image.specs.declared.no.Which.TheVariants as which;
ghost use Rattle.std.specs.FinMap as map;
ghost use Rattle.em_path.specs.Paths.{root_text, parent_text};
ghost use Rattle.em_tree.specs.declared.node.Node.TheVariants as node;
ghost use Rattle.em_tree.specs.Trees.{Table};
ghost use Rattle.em_image.specs.Image.{IsImage, limits, broken};
ghost use Rattle.em_image.specs.Parts.{Gives, IsAt, IsSized, seen};
ghost use Rattle.em_image.specs.Reading.{has_dir, root_at, bytes_at, body_at, node_at, closed, still_due, nodes_at, is_end, is_unfit, reading};
ghost use Rattle.em_image.specs.declared.header.Sort.TheVariants as sort;

use crate::cursor::{Cursor, Mark};
use crate::header::{Header, Sort};
use crate::lines::header;
use crate::no::{ImageNo, Which};
use crate::parts::{end, fixed, head, mark, skipped};
use bytes::Bytes;
use em_base::{NoMemory, Text};
use em_path::Path;
use em_tree::{Body, Kind, LinkText, Node, Tree};
use std::alloc::Global;

/// The most bytes that an image may have.
pub const MAX_IMAGE: usize = 67_108_864;

/// The most nodes that an image may have.
pub const MAX_NODES: usize = 100_000;

/// Whether it is the mark of the end.
fn is_end(mark: Mark) -> bool
    ensures { result ≡ is_end mark }
{
    match mark {
        Mark::End => true,
        Mark::Dir | Mark::File | Mark::Link => false,
    }
}

/// Takes the first node, which is the directory `/`, and gives its stamp.
#[tactic(auto, unfolding(crate::specs::Reading::root_at))]
fn root<'a>(input: &Bytes, cursor: Cursor<'a>, links: bool) -> Result<(u64, Cursor<'a>), ImageNo>
    requires { IsAt input.now (seen cursor) }
    ensures { Gives (λ x. (x.0, seen x.1)) result (root_at limits links (seen cursor.entry)) }
{
    let (mark, after) = mark(cursor, links)?;
    if is_end(mark) {
        return Err(ImageNo::Form { at: cursor.at });
    }
    let (header, after) = header(input, after, mark)?;
    if header.sort.has_bytes() || header.path.text() != b"/".as_slice() {
        return Err(ImageNo::Parent { at: header.place });
    }
    Ok((header.stamp, after))
}

/// Takes the bytes of a file and a newline. The body shares the input's bytes.
#[tactic(auto, unfolding(crate::specs::Reading::body_at))]
fn file<'a>(
    input: &Bytes,
    cursor: Cursor<'a>,
    stamp: u64,
    size: u64,
) -> Result<(Node, Cursor<'a>), ImageNo>
    requires { IsAt input.now (seen cursor) }
    ensures { Gives (λ x. (x.0, seen x.1)) result
        (body_at stamp (sort.File size) (seen cursor.entry)) }
{
    let size = size as usize;
    if cursor.rest.len() < size {
        return Err(ImageNo::Short { at: end(cursor) });
    }
    let after = fixed(skipped(cursor, size), b'\n')?;
    let start = cursor.at as usize;
    let body = Body::from_bytes(input.slice(start..start + size)?);
    Ok((Node::File { body, stamp }, after))
}

/// The place of the first NUL or newline.
fn first_unfit(bytes: &[u8]) -> Option<usize>
    ensures { result ≡ position is_unfit bytes.now }
{
    bytes.iter().position(|b| *b == 0 || *b == b'\n')
}

/// Takes the text of a link and a newline. The text is copied.
#[tactic(auto, unfolding(crate::specs::Reading::body_at))]
fn link<'a>(
    alloc: Global,
    cursor: Cursor<'a>,
    stamp: u64,
    size: u64,
) -> Result<(Node, Cursor<'a>), ImageNo>
    requires { IsSized limits (sort.Link size) }
    ensures { Gives (λ x. (x.0, seen x.1)) result
        (body_at stamp (sort.Link size) (seen cursor.entry)) }
{
    let size = size as usize;
    if cursor.rest.len() < size {
        return Err(ImageNo::Short { at: end(cursor) });
    }
    let bytes = &cursor.rest[..size];
    if let Some(n) = first_unfit(bytes) {
        return Err(ImageNo::Form {
            at: cursor.at + n as u32,
        });
    }
    let after = fixed(skipped(cursor, size), b'\n')?;
    let text = LinkText::new(Text::from_slice(alloc, bytes)?);
    Ok((Node::Link { text, stamp }, after))
}

/// Takes of a file its bytes and a newline, of a link its text and a newline, and of a directory
/// nothing.
#[tactic(auto, unfolding(crate::specs::Reading::body_at))]
fn body<'a>(
    alloc: Global,
    input: &Bytes,
    cursor: Cursor<'a>,
    stamp: u64,
    sort: Sort,
) -> Result<(Node, Cursor<'a>), ImageNo>
    requires at { IsAt input.now (seen cursor) }
    requires size { IsSized limits sort }
    ensures { Gives (λ x. (x.0, seen x.1)) result (body_at stamp sort (seen cursor.entry)) }
{
    match sort {
        Sort::Dir => Ok((Node::Dir { stamp }, cursor)),
        Sort::File { size } => file(input, cursor, stamp, size),
        Sort::Link { size } => link(alloc, cursor, stamp, size),
    }
}

/// The parent of a path, where it is a directory of the tree. No search where it is `home`, which
/// is one.
fn parent_in(alloc: Global, tree: &Tree, home: &Path, path: &Path) -> Result<Option<Path>, NoMemory>
    requires { has_dir tree.now (Some home.now) ≡ true }
    ensures { IfOk result
        (λ r. r ≡ (if has_dir tree.now (parent_text path.now) then parent_text path.now
        else None)) }
{
    match path.parent(alloc) {
        Err(_) => Err(NoMemory),
        Ok(None) => Ok(None),
        Ok(Some(parent)) if parent == *home || tree.kind(&parent) == Kind::Dir => Ok(Some(parent)),
        Ok(Some(_)) => Ok(None),
    }
}

/// Takes a node behind the path `last`, where `tree` was read, and gives its parent, too.
#[tactic(auto, unfolding(crate::specs::Reading::node_at))]
fn node<'a>(
    alloc: Global,
    input: &Bytes,
    tree: &Tree,
    home: &Path,
    last: &Path,
    cursor: Cursor<'a>,
    mark: Mark,
) -> Result<(Path, Node, Cursor<'a>, Path), ImageNo>
    requires at { IsAt input.now (seen cursor) }
    requires home { has_dir tree.now (Some home.now) ≡ true }
    ensures parent { IfOk result (λ x. parent_text x.0 ≡ Some x.3) }
    ensures node { Gives (λ x. ((x.0, x.1), seen x.2)) result
        (node_at limits mark last.now tree.now (seen cursor.entry)) }
{
    let (header, after) = header(input, cursor, mark)?;
    let Header {
        stamp,
        sort,
        path,
        place,
    } = header;
    if !last.cmp(&path).is_lt() {
        return Err(ImageNo::Order { at: place });
    }
    let Some(parent) = parent_in(alloc, tree, home, &path)? else {
        return Err(ImageNo::Parent { at: place });
    };
    let (node, after) = body(alloc, input, after, stamp, sort)?;
    Ok((path, node, after, parent))
}

/// What was read, where the end comes at a place and no link is due.
fn closed<'a>(
    tree: Tree,
    due: bool,
    at: u32,
    after: Cursor<'a>,
) -> Result<(Tree, Cursor<'a>), ImageNo>
    ensures { Gives (λ x. (x.0, seen x.1)) result (closed due at tree (seen after.entry)) }
{
    if due {
        return Err(ImageNo::Form { at });
    }
    Ok((tree, after))
}

/// Whether a link is due behind the node.
fn still_due(due: bool, node: &Node) -> bool
    ensures { (p : List ℕ) → result ≡ still_due due (p, node.now) }
{
    due && node.link().is_none()
}

/// Takes the nodes behind the root, and the `.` of the end.
fn nodes<'a>(
    alloc: Global,
    input: &Bytes,
    links: bool,
    root_stamp: u64,
    cursor: Cursor<'a>,
) -> Result<(Tree, Cursor<'a>), ImageNo>
    requires { IsAt input.now (seen cursor) }
    ensures { Gives (λ x. (x.0, seen x.1)) result
        (nodes_at limits links links (limits.nodes - 1) root_text
        (map.insert map.empty root_text (node.Dir root_stamp)) (seen cursor.entry)) }
{
    let mut tree = Tree::new(alloc, root_stamp)?;
    let mut last = Path::root();
    let mut home = Path::root();
    let mut here = cursor;
    let mut due = links;
    for _ in 1..MAX_NODES {
        let (mark, after) = mark(here, links)?;
        if is_end(mark) {
            return closed(tree, due, here.at, after);
        }
        let (path, node, after, parent) = node(alloc, input, &tree, &home, &last, after, mark)?;
        last = path.copy()?;
        due = still_due(due, &node);
        tree.add(path, node)?;
        home = parent;
        here = after;
    }
    let (mark, after) = mark(here, links)?;
    if is_end(mark) {
        return closed(tree, due, here.at, after);
    }
    Err(ImageNo::Limit {
        which: Which::Nodes,
        at: here.at,
    })
}

/// Whether an input is too long to be read.
fn is_too_long(bytes: &[u8]) -> bool
    ensures { result ≡ nat_lt limits.image (length bytes.now) }
{
    bytes.len() > MAX_IMAGE
}

const TOO_LONG: ImageNo = ImageNo::Limit {
    which: Which::Image,
    at: 67_108_864,
};

/// The tree of the whole input.
#[tactic(auto, unfolding(crate::specs::Reading::reading))]
fn whole(alloc: Global, input: &Bytes) -> Result<Tree, ImageNo>
    requires { nat_lt limits.image (length input.now) ≡ false }
    ensures { Gives (λ t. t) result (reading limits input.now) }
{
    let rest = input.as_slice();
    let (links, cursor) = head(Cursor { at: 0, rest })?;
    let (stamp, cursor) = root(input, cursor, links)?;
    let (tree, cursor) = nodes(alloc, input, links, stamp, cursor)?;
    let cursor = fixed(cursor, b'\n')?;
    if !cursor.rest.is_empty() {
        return Err(ImageNo::Rest { at: cursor.at });
    }
    Ok(tree)
}

/// The tree whose text this is. The first fault from the left is the error; what each is and its
/// place is said at `ImageNo`. The bytes are copied once, and the tree's paths and bodies share
/// them; the texts of links are copied again. `read_text` copies those alone.
pub fn read_image(alloc: Global, bytes: &[u8]) -> Result<Tree, ImageNo>
    // The bytes are the tree's text, and the tree breaks no limit.
    ensures found { IfOk result (λ t. IsImage bytes.now t × (broken limits t ≡ None)) }
    // A text of a tree that breaks no limit is read as that tree, unless memory runs out.
    ensures only { (t : Table) → IsImage bytes.now t → broken limits t ≡ None
        → Gives (λ u. u) result (Ok t) }
    // Which fault it is, and where.
    ensures exact { Gives (λ t. t) result (reading limits bytes.now) }
    // An input that is too long is told also where memory is short.
    ensures long { limits.image < length bytes.now
        → result ≡ Err (no.Limit which.Image limits.image) }
{
    if is_too_long(bytes) {
        return Err(TOO_LONG);
    }
    whole(alloc, &Bytes::copy_from_slice(alloc, bytes)?)
}

/// The tree whose text this is, as `read_image`. No byte is copied but those of links: the tree's
/// paths and bodies share the text's, which stay as long as one of them does.
pub fn read_text(alloc: Global, text: Text) -> Result<Tree, ImageNo>
    ensures found { IfOk result (λ t. IsImage text t × (broken limits t ≡ None)) }
    ensures only { (t : Table) → IsImage text t → broken limits t ≡ None
        → Gives (λ u. u) result (Ok t) }
    ensures exact { Gives (λ t. t) result (reading limits text) }
    ensures long { limits.image < length text → result ≡ Err (no.Limit which.Image limits.image) }
{
    if is_too_long(text.bytes()) {
        return Err(TOO_LONG);
    }
    whole(alloc, &Bytes::from_vec(text.into_vec())?)
}
