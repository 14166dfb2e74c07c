//! The generated project.
ghost use Rattle.std.specs.Prelude.{◌≡◌, ◌≤◌, ◌∷◌, ◌++◌, codes, decimal, IfOk, OnOk};
ghost use Rattle.std.specs.FinMap.{insert};
ghost use Rattle.em_path.specs.Paths.{IsComponent, IsPath};
ghost use Rattle.em_tree.specs.Trees.{base_of};
ghost use Rattle.em_tree.specs.declared.node.Node.TheVariants as node;
ghost use Rattle.em_gen.specs.Flat.{IsFlat};
ghost use Rattle.em_gen.specs.Generated as generated;

use crate::makefile::{makefile, put_number};
use em_base::{NoMemory, Text};
use em_path::Path;
use em_tree::{Body, Node, Tree};
use std::alloc::Global;

/// The path of a name right under the root.
fn under_root(alloc: Global, name: &[u8]) -> Result<Path, NoMemory>
    requires { IsComponent name.now }
    ensures text { IfOk result (λ p. p ≡ 47 ∷ name.now) }
    ensures path { IfOk result IsPath }
{
    match Path::root().child(alloc, name) {
        Ok(path) => Ok(path),
        Err(_) => Err(NoMemory),
    }
}

/// Puts a file of the stamp 1 right under the root.
fn put_file(alloc: Global, tree: &mut Tree, name: &[u8], bytes: &[u8]) -> Result<(), NoMemory>
    requires component { IsComponent name.now }
    requires flat { IsFlat tree.old }
    ensures ok { OnOk result (tree.new ≡ insert tree.old (47 ∷ name.now) (node.File bytes.now 1)) }
    ensures flat { OnOk result (IsFlat tree.new) }
{
    let path = under_root(alloc, name)?;
    let body = Body::from_slice(alloc, bytes)?;
    tree.set(path, Node::File { body, stamp: 1 })
}

/// A text and a number.
fn numbered(alloc: Global, text: &[u8], number: u32) -> Result<Text, NoMemory>
    ensures { IfOk result (λ t. t ≡ text.now ++ decimal number) }
{
    let mut out = Text::from_slice(alloc, text)?;
    put_number(&mut out, number)?;
    Ok(out)
}

/// Puts the i-th source.
fn put_source(alloc: Global, tree: &mut Tree, i: u32) -> Result<(), NoMemory>
    requires { IsFlat tree.old }
    ensures ok { OnOk result (tree.new ≡ generated.with_source tree.old i) }
    ensures flat { OnOk result (IsFlat tree.new) }
{
    let name = numbered(alloc, b"s", i)?;
    let mut bytes = numbered(alloc, b"", i)?;
    bytes.add(b"\n")?;
    put_file(alloc, tree, name.bytes(), bytes.bytes())
}

/// A tree of 1 to 10,000 sources `/s0`, `/s1`, .., each of its number and a newline, and a
/// `/Makefile` whose goal `all` makes `t0`, `t1`, .. : each target is its source and behind it the
/// target of half the number before its own, which the makefile doesn't name as a prerequisite. All
/// stamps are 1. Linear in n but for a search in the tree for each source.
pub fn project(alloc: Global, n: u32) -> Result<Tree, NoMemory>
    requires size { (1 ≤ n) × (n ≤ 10000) }
    ensures tree { IfOk result (λ t. t ≡ generated.project n) }
    ensures base { IfOk result (λ t. base_of t ≤ 1) }
{
    let mut tree = Tree::new(alloc, 1)?;
    put_file(alloc, &mut tree, b"Makefile", makefile(alloc, n)?.bytes())?;
    for i in 0..n {
        put_source(alloc, &mut tree, i)?;
    }
    Ok(tree)
}
