//! Lines that are joined.
ghost use Rattle.std.specs.Prelude.{◌≡◌, ◌≤◌, ◌==◌, ◌++◌, ◌∷◌, IfOk, OnOk, min, length, option_copied};
ghost use Rattle.std.specs.List.{position_or_len};
ghost use Rattle.em_base.specs.Blanks.{trimmed_start, trimmed_end};
ghost use Rattle.em_lines.specs.Joining.{rows, goes_on, is_recipe, joined_text, untabbed, without_last};
ghost use Rattle.em_lines.specs.First.{rows_in, first_group, behind_first};

use em_base::{NoMemory, Text, trim_end, trim_start};
use std::alloc::Global;

/// A logical line, taken off the front of a file.
pub(crate) struct First<'a> {
    /// Whether it begins with a tab.
    pub tab: bool,
    /// Its text.
    pub text: Text,
    /// How many lines of the file it is made of, at most 4,294,967,295.
    pub rows: u32,
    /// What stands behind its newline, if it has one.
    pub rest: Option<&'a [u8]>,
}

/// How many bytes stand before the first newline.
fn before_newline(bytes: &[u8]) -> usize
    ensures within { result ≤ length bytes.now }
    ensures first { result ≡ position_or_len (λ b. b == 10) bytes.now }
{
    bytes.iter().take_while(|byte| **byte != b'\n').count()
}

/// The first line of the file, and what stands behind its newline, if it has one.
pub(crate) fn first_row(bytes: &[u8]) -> (&[u8], Option<&[u8]>)
    ensures { rows bytes.now ≡ result.0.now ∷ rows_in (option_copied result.1) }
{
    let end = before_newline(bytes);
    (&bytes[..end], bytes.get(end + 1..))
}

/// Whether the last byte is a backslash.
#[tactic(auto, using(crate::proofs::Rows::last_byte))]
pub(crate) fn goes_on(text: &[u8]) -> bool
    ensures { result ≡ goes_on text.now }
{
    text.last() == Some(&b'\\')
}

/// The line without the tab that it begins with, if it does.
fn untabbed(row: &[u8]) -> &[u8]
    ensures { result.now ≡ untabbed row.now }
{
    match row.split_first() {
        Some((b'\t', rest)) => rest,
        _ => row,
    }
}

/// Joins a line with a text that ends with a backslash, outside recipes: the backslash and the
/// blanks round it become a space.
pub(crate) fn splice(text: &mut Vec<u8>, row: &[u8]) -> Result<(), NoMemory>
    ensures { OnOk result (text.new.items
        ≡ trimmed_end (without_last text.old.items) ++ 32 ∷ trimmed_start row.now) }
{
    let kept = trim_end(&text[..text.len().saturating_sub(1)]).len();
    text.truncate(kept);
    text.push(b' ')?;
    text.extend_from_slice(trim_start(row))?;
    Ok(())
}

/// Joins a line with the text of a recipe's line: that keeps its backslash and newline.
fn append(text: &mut Vec<u8>, row: &[u8]) -> Result<(), NoMemory>
    ensures { OnOk result (text.new.items ≡ text.old.items ++ 10 ∷ untabbed row.now) }
{
    text.push(b'\n')?;
    text.extend_from_slice(untabbed(row))?;
    Ok(())
}

/// The first logical line of the file, with its comment. Steps for each of its bytes; where nothing
/// is joined, its text is copied once.
pub(crate) fn first_line<'a>(alloc: Global, bytes: &'a [u8]) -> Result<First<'a>, NoMemory>
    ensures tab { IfOk result (λ l. l.tab ≡ is_recipe (first_group (rows bytes.now))) }
    ensures text { IfOk result (λ l. l.text ≡ joined_text (first_group (rows bytes.now))) }
    ensures rows { IfOk result
        (λ l. l.rows ≡ min (length (first_group (rows bytes.now))) 4294967295) }
    ensures rest { IfOk result
        (λ l. rows_in (option_copied l.rest) ≡ behind_first (rows bytes.now)) }
{
    let (row, mut rest) = first_row(bytes);
    let tab = row.first() == Some(&b'\t');
    let mut text = Vec::from_slice(alloc, untabbed(row))?;
    let mut rows: u32 = 1;
    while goes_on(text.as_slice()) {
        let Some(bytes) = rest else {
            break;
        };
        let (row, behind) = first_row(bytes);
        if tab {
            append(&mut text, row)?;
        } else {
            splice(&mut text, row)?;
        }
        rows = rows.saturating_add(1);
        rest = behind;
    }
    let text = Text::from_vec(text);
    Ok(First {
        tab,
        text,
        rows,
        rest,
    })
}
