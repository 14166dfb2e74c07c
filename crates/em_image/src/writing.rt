//! Writing an image.
ghost use Rattle.std.specs.Prelude.{◌≡◌, ℕ, List, ◌+◌, ◌<◌, ◌++◌, codes, length, true, None, Some, Err, IfOk, IfSome, OnOk, MatchOption, MatchResult, decimal, nat_lt};
ghost use Rattle.std.specs.List.{list_any};
ghost use Rattle.std.specs.FinMap.{entries};
ghost use Rattle.em_tree.specs.LinkTexts.{IsLinkText};
ghost use Rattle.em_tree.specs.Trees.{IsTree};
ghost use Rattle.em_tree.specs.declared.node.Node.TheVariants as nodes;
ghost use Rattle.em_image.specs.declared.no.ImageNo.TheVariants as no;
ghost use Rattle.em_image.specs.Image.{AreLinks, IsImage, limits, broken, node_text, is_link, head_of, image_text, is_too_big, is_too_late, writing};
ghost use Rattle.em_image.specs.Parts.{Gives};

use crate::lines::{MAX_FILE, MAX_STAMP};
use crate::no::{ImageNo, Which};
use crate::reading::{MAX_IMAGE, MAX_NODES};
use em_base::{NoMemory, Text};
use em_path::Path;
use em_tree::{Node, Tree};
use itoa::Buffer;
use std::alloc::Global;

/// Appends a number.
fn put_number(out: &mut Text, number: u64) -> Result<(), NoMemory>
    ensures { OnOk result (out.new ≡ out.old ++ decimal number) }
{
    let mut buffer = Buffer::new();
    out.add(buffer.format(number).as_bytes())
}

/// How many digits a number has.
fn digits_of(number: u64) -> usize
    ensures { result ≡ length (decimal number) }
{
    let mut buffer = Buffer::new();
    buffer.format(number).len()
}

/// Appends the line of a file or a link behind its letter, and its bytes, without the newline.
fn put_bytes(out: &mut Text, stamp: u64, path: &Path, bytes: &[u8]) -> Result<(), NoMemory>
    ensures { OnOk result
        (out.new
        ≡ out.old ++ (decimal stamp ++ codes " " ++ decimal (length bytes.now) ++ codes " " ++ path.now
        ++ codes "\n" ++ bytes.now)) }
{
    put_number(out, stamp)?;
    out.add(b" ")?;
    put_number(out, bytes.len() as u64)?;
    out.add(b" ")?;
    out.add(path.text())?;
    out.add(b"\n")?;
    out.add(bytes)
}

/// Appends the text of a node.
fn put_node(out: &mut Text, path: &Path, node: &Node) -> Result<(), NoMemory>
    ensures { OnOk result (out.new ≡ out.old ++ node_text (path.now, node.now)) }
{
    match node {
        Node::File { body, stamp } => {
            out.add(b"f ")?;
            put_bytes(out, *stamp, path, body.bytes())?;
        }
        Node::Dir { stamp } => {
            out.add(b"d ")?;
            put_number(out, *stamp)?;
            out.add(b" ")?;
            out.add(path.text())?;
        }
        Node::Link { text, stamp } => {
            out.add(b"l ")?;
            put_bytes(out, *stamp, path, text.bytes())?;
        }
    }
    out.add(b"\n")
}

/// What is left of `room` bytes behind so many bytes, their number, a stamp and six bytes more.
fn left_of(room: usize, size: usize, stamp: u64) -> Option<usize>
    ensures { MatchOption result
        (room < size + length (decimal stamp) + length (decimal size) + 6)
        (λ left. left + (size + length (decimal stamp) + length (decimal size) + 6) ≡ room) }
{
    let room = room.checked_sub(size)?.checked_sub(digits_of(stamp))?;
    room.checked_sub(digits_of(size as u64))?.checked_sub(6)
}

/// What is left of `room` bytes behind the text of a node; none where the text is longer.
fn left_behind(room: usize, path: &Path, node: &Node) -> Option<usize>
    ensures { MatchOption result (room < length (node_text (path.now, node.now)))
        (λ left. left + length (node_text (path.now, node.now)) ≡ room) }
{
    let room = room.checked_sub(path.text().len())?;
    match node {
        Node::File { body, stamp } => left_of(room, body.bytes().len(), *stamp),
        Node::Link { text, stamp } => left_of(room, text.bytes().len(), *stamp),
        Node::Dir { stamp } => room.checked_sub(digits_of(*stamp))?.checked_sub(4),
    }
}

/// What is asked of all nodes: how many bytes the text may still have, whether there is a link,
/// whether a file is too big, and whether a stamp is too late.
struct Measure {
    room: usize,
    has_link: bool,
    has_big_file: bool,
    has_late_stamp: bool,
}

/// Whether the node is a file that is too big.
fn is_big(node: &Node) -> bool
    ensures { (p : List ℕ) → result ≡ is_too_big limits (p, node.now) }
{
    match node {
        Node::File { body, .. } => body.bytes().len() as u64 > MAX_FILE,
        Node::Dir { .. } | Node::Link { .. } => false,
    }
}

/// Whether the node is a link, whose text is never empty.
fn is_link(node: &Node) -> bool
    ensures link { (p : List ℕ) → result ≡ is_link (p, node.now) }
    ensures text { (text : List ℕ) (stamp : ℕ) → node.now ≡ nodes.Link text stamp
        → IsLinkText text }
{
    match node {
        Node::Link { text, .. } => !text.bytes().is_empty(),
        Node::File { .. } | Node::Dir { .. } => false,
    }
}

/// Whether the node's stamp is too late.
fn is_late(node: &Node) -> bool
    ensures { (p : List ℕ) → result ≡ is_too_late limits (p, node.now) }
{
    node.stamp() > MAX_STAMP
}

/// Measures the tree in one pass; none where its text is too long.
fn measured(tree: &Tree) -> Option<Measure>
    ensures text { MatchOption result (limits.image < length (image_text tree.now))
        (λ m. m.room + length (image_text tree.now) ≡ limits.image) }
    ensures nodes { IfSome result
        (λ m. (m.has_link ≡ list_any is_link (entries tree.now))
        × (m.has_big_file ≡ list_any (is_too_big limits) (entries tree.now))
        × (m.has_late_stamp ≡ list_any (is_too_late limits) (entries tree.now))) }
    ensures links { IfSome result (λ m. AreLinks tree.now) }
{
    let mut room = MAX_IMAGE - 11;
    let mut has_link = false;
    let mut has_big_file = false;
    let mut has_late_stamp = false;
    for (path, node) in tree.nodes() {
        room = left_behind(room, path, node)?;
        has_link |= is_link(node);
        has_big_file |= is_big(node);
        has_late_stamp |= is_late(node);
    }
    Some(Measure {
        room,
        has_link,
        has_big_file,
        has_late_stamp,
    })
}

/// How many bytes the text has, and whether there is a link; or the first limit that the tree
/// breaks.
fn length_of(tree: &Tree) -> Result<(usize, bool), Which>
    ensures exact { MatchResult result
        (λ n. (broken limits tree.now ≡ None) × (n.0 ≡ length (image_text tree.now)))
        (λ w. broken limits tree.now ≡ Some w) }
    ensures links { IfOk result
        (λ n. (n.1 ≡ list_any is_link (entries tree.now)) × AreLinks tree.now) }
    ensures tree { OnOk result (IsTree tree.now) }
{
    let Some(
        Measure {
            room,
            has_link,
            has_big_file,
            has_late_stamp,
        },
    ) = measured(tree)
    else {
        return Err(Which::Image);
    };
    if tree.count() > MAX_NODES {
        return Err(Which::Nodes);
    }
    if has_big_file {
        return Err(Which::File);
    }
    if has_late_stamp {
        return Err(Which::Stamp);
    }
    Ok((MAX_IMAGE - room, has_link))
}

/// The first line.
fn head_of(has_link: bool) -> &'static [u8]
    ensures { result.now ≡ head_of has_link }
{
    if has_link {
        b"EMTREE 2\n"
    } else {
        b"EMTREE 1\n"
    }
}

/// The text of the tree, which has so many bytes, and a link or none.
fn text_of(alloc: Global, tree: &Tree, length: usize, has_link: bool) -> Result<Text, NoMemory>
    requires { has_link ≡ list_any is_link (entries tree.now) }
    ensures { IfOk result (λ t. t ≡ image_text tree.now) }
{
    let mut out = Text::from_vec(Vec::with_capacity(alloc, length)?);
    out.add(head_of(has_link))?;
    for (path, node) in tree.nodes() {
        put_node(&mut out, path, node)?;
    }
    out.add(b".\n")?;
    Ok(out)
}

/// The text of the tree. `Limit` comes exactly where the tree breaks a limit, of several the first
/// of image, nodes, file and stamp, with the place 0, and before memory is asked for. Each file's
/// bytes are appended once, to memory that is asked for once.
pub fn write_image(alloc: Global, tree: &Tree) -> Result<Text, ImageNo>
    // What is written is the tree's text, and the tree breaks no limit. So it is read again.
    ensures written { IfOk result
        (λ text. IsImage text tree.now × (broken limits tree.now ≡ None)) }
    // Which limit is refused.
    ensures exact { Gives (λ t. t) result (writing limits tree.now) }
    // It is told also where memory is short.
    ensures refused { IfSome (broken limits tree.now) (λ w. result ≡ Err (no.Limit w 0)) }
{
    match length_of(tree) {
        Ok((length, has_link)) => Ok(text_of(alloc, tree, length, has_link)?),
        Err(which) => Err(ImageNo::Limit { which, at: 0 }),
    }
}
