//! `grep -F`: the lines that hold a text.
ghost use Rattle.std.specs.Prelude.{◌≡◌, map, IfOk};
ghost use Rattle.em_lineutil.specs.Searching as searching;
ghost use Rattle.em_lineutil.specs.Searching.{holds, fits, is_selected};

use crate::line::{bare, lines};
use bstr::ByteSlice;
use em_base::{NoMemory, Text};
use std::alloc::Global;

/// How lines are searched.
#[derive(Clone, Copy, Debug, PartialEq, Eq)]
pub struct Search {
    /// The line is to be the text, and not only to hold it.
    pub whole: bool,
    /// The other lines are selected.
    pub inverted: bool,
}

/// Whether the text stands in the line.
fn holds(text: &[u8], line: &[u8]) -> bool
    ensures { result ≡ holds text.now line.now }
{
    line.split_once_str(text).is_some()
}

fn fits(whole: bool, text: &[u8], line: &[u8]) -> bool
    ensures { result ≡ fits whole text.now line.now }
{
    if whole {
        line == text
    } else {
        holds(text, line)
    }
}

fn is_selected(search: &Search, text: &[u8], line: &[u8]) -> bool
    ensures { result ≡ is_selected search.now text.now line.now }
{
    if search.inverted {
        !fits(search.whole, text, bare(line))
    } else {
        fits(search.whole, text, bare(line))
    }
}

/// The lines that hold the text, or are it, or don't, each with its newline. The newline is no part
/// of what is searched. Steps for each byte.
pub fn selected<'a>(
    alloc: Global,
    search: &Search,
    text: &[u8],
    file: &'a [u8],
) -> Result<Vec<&'a [u8]>, NoMemory>
    ensures { IfOk result
        (λ v. map (λ l. l.now) v.items ≡ searching.selected search.now text.now file.now) }
{
    let mut lines = lines(alloc, file)?;
    lines.retain(|line| is_selected(search, text, line));
    Ok(lines)
}

/// The lines, each behind the prefix. A step for each byte that is written.
pub fn prefixed(alloc: Global, front: &[u8], lines: &[&[u8]]) -> Result<Text, NoMemory>
    ensures { IfOk result (λ t. t ≡ searching.prefixed front.now (map (λ l. l.now) lines.now)) }
{
    let mut out = Text::new(alloc);
    for line in lines {
        out.add(front)?;
        out.add(line)?;
    }
    Ok(out)
}
