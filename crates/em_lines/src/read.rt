//! The lines of a makefile.
ghost use Rattle.std.specs.Prelude.{◌≡◌, ◌⊎◌, Ok, Err, IfOk, IfErr};
ghost use Rattle.em_lines.specs.Lines as lines;
ghost use Rattle.em_lines.specs.Lines.{all_lines};
ghost use Rattle.em_lines.specs.Kept.{bared};

use crate::comment::bare;
use crate::joining::{First, first_line};
use crate::line::{Line, Lines};
use crate::no::LinesNo;
use em_base::{NoMemory, Place, Seq, Text};
use std::alloc::Global;

/// How many bytes a logical line can have.
const LINE_LIMIT: usize = 1_048_576;

/// The logical lines of the file, with their comments, up to the first one whose text is longer
/// than 1,048,576 bytes. A line that begins with a tab is one of a recipe: its text has no tab at
/// the begin, its backslashes and newlines stay, and one tab behind each of them is dropped.
/// Elsewhere a backslash at a line's end and the newline, with the blanks round them, are one
/// space. A last line needs no newline, and a backslash there stays. Steps for each byte; the text
/// of a line is copied once, and so is the file's name for each line.
pub fn joined(alloc: Global, file: &Text, bytes: &[u8]) -> Result<Lines, NoMemory>
    ensures { IfOk result (λ ls. ls ≡ lines.joined file.now bytes.now) }
{
    let mut lines = Seq::new(alloc);
    let mut number: u32 = 1;
    let mut rest = Some(bytes);
    while let Some(bytes) = rest {
        if bytes.is_empty() {
            break;
        }
        let First {
            tab,
            text,
            rows,
            rest: behind,
        } = first_line(alloc, bytes)?;
        let place = Place {
            file: file.copy(alloc)?,
            line: number,
        };
        if text.bytes().len() > LINE_LIMIT {
            let too_long = Some(place);
            return Ok(Lines { lines, too_long });
        }
        lines.push(Line { place, tab, text })?;
        number = number.saturating_add(rows);
        rest = behind;
    }
    let too_long = None;
    Ok(Lines { lines, too_long })
}

/// The line without its comment, if it isn't of a recipe.
fn without_comment(alloc: Global, line: Line) -> Result<Line, NoMemory>
    ensures { IfOk result (λ l. l ≡ bared line) }
{
    let Line { place, tab, text } = line;
    let text = if tab { text } else { bare(alloc, text)? };
    Ok(Line { place, tab, text })
}

/// The logical lines of the file, without the comments of those that aren't of a recipe, up to the
/// first one that is too long with its comment. Each line is taken by itself: whoever knows that a
/// `#` begins no comment in it (in a rule behind `;`, in the body of a `define`) goes by `joined`
/// and `bare`. Steps for each byte; the text of a line that has no `#` is copied once, other texts
/// twice.
pub fn logical_before(alloc: Global, file: &Text, bytes: &[u8]) -> Result<Lines, NoMemory>
    ensures { IfOk result (λ ls. ls ≡ lines.logical file.now bytes.now) }
{
    let Lines { lines, too_long } = joined(alloc, file, bytes)?;
    let mut bared = Seq::new(alloc);
    for line in lines.into_vec() {
        bared.push(without_comment(alloc, line)?)?;
    }
    let lines = bared;
    Ok(Lines { lines, too_long })
}

/// The logical lines of the file, as `logical_before` gives them. `TooLong` comes exactly where a
/// joined line is longer than 1,048,576 bytes, with the place of the first such line.
pub fn logical(alloc: Global, file: &Text, bytes: &[u8]) -> Result<Vec<Line>, LinesNo>
    ensures ok { IfOk result (λ v. all_lines file.now bytes.now ≡ Ok v.items) }
    ensures err { IfErr result
        (λ e. (e ≡ LinesNo.NoMemory) ⊎ (all_lines file.now bytes.now ≡ Err e)) }
{
    let Lines { lines, too_long } = logical_before(alloc, file, bytes)?;
    match too_long {
        Some(place) => Err(LinesNo::TooLong(place)),
        None => Ok(lines.into_vec()),
    }
}
