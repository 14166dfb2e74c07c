//! `sort`: lines in byte order.
ghost use Rattle.std.specs.Prelude.{◌≡◌, ◌++◌, ◌∷◌, [], map, IfOk, OnOk};
ghost use Rattle.std.specs.List.{flat_map};
ghost use Rattle.em_lineutil.specs.Sorting as sorting;
ghost use Rattle.em_lineutil.specs.Sorting.{bare_lines, sorted, once, turned};

use crate::line::bare;
use bstr::ByteSlice;
use em_base::{NoMemory, Text};
use std::alloc::Global;

/// How lines are put in order.
#[derive(Clone, Copy, Debug, PartialEq, Eq)]
pub struct Order {
    /// The greatest comes first.
    pub backwards: bool,
    /// Of lines that are equal one is kept.
    pub unique: bool,
}

/// Appends the text's lines, without their newlines.
fn push_lines<'a>(all: &mut Vec<&'a [u8]>, text: &'a [u8]) -> Result<(), NoMemory>
    ensures { OnOk result
        (map (λ l. l.now) all.new.items ≡ map (λ l. l.now) all.old.items ++ bare_lines text.now) }
{
    for line in text.lines_with_terminator() {
        all.push(bare(line))?;
    }
    Ok(())
}

/// The lines of all texts, without their newlines.
fn all_lines<'a>(alloc: Global, texts: &[&'a [u8]]) -> Result<Vec<&'a [u8]>, NoMemory>
    ensures { IfOk result
        (λ v. map (λ l. l.now) v.items ≡ flat_map bare_lines (map (λ t. t.now) texts.now)) }
{
    let mut all = Vec::new(alloc);
    for text in texts {
        push_lines(&mut all, text)?;
    }
    Ok(all)
}

fn put_in_order(lines: &mut Vec<&[u8]>)
    ensures { map (λ l. l.now) lines.new.items ≡ sorted (map (λ l. l.now) lines.old.items) }
{
    lines.sort_unstable();
}

fn keep_once(lines: &mut Vec<&[u8]>, unique: bool)
    ensures { map (λ l. l.now) lines.new.items ≡ once unique (map (λ l. l.now) lines.old.items) }
{
    if unique {
        lines.dedup();
    }
}

fn turn(lines: &mut Vec<&[u8]>, backwards: bool)
    ensures { map (λ l. l.now) lines.new.items
        ≡ turned backwards (map (λ l. l.now) lines.old.items) }
{
    if backwards {
        lines.reverse();
    }
}

/// The lines, each with a newline behind it.
fn with_newlines(alloc: Global, lines: &[&[u8]]) -> Result<Text, NoMemory>
    ensures { IfOk result (λ t. t ≡ flat_map (λ l. l ++ 10 ∷ []) (map (λ l. l.now) lines.now)) }
{
    let mut text = Text::new(alloc);
    for line in lines {
        text.add(line)?;
        text.add(b"\n")?;
    }
    Ok(text)
}

/// The lines of all texts in byte order, each with a newline. The order looks at a line without its
/// newline. Steps: n log n comparisons of n lines, and one for each byte.
#[tactic(auto, unfolding(crate::specs::Sorting::sort_text))]
pub fn sort_text(alloc: Global, order: &Order, texts: &[&[u8]]) -> Result<Text, NoMemory>
    ensures { IfOk result (λ t. t ≡ sorting.sort_text order.now (map (λ t. t.now) texts.now)) }
{
    let mut lines = all_lines(alloc, texts)?;
    put_in_order(&mut lines);
    keep_once(&mut lines, order.unique);
    turn(&mut lines, order.backwards);
    with_newlines(alloc, &lines)
}
