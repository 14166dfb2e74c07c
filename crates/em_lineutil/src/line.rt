//! Lines of a text.
ghost use Rattle.std.specs.Prelude.{◌≡◌, ◌≤◌, ◌-◌, length, map, drop, IfOk};
ghost use Rattle.std.specs.List.{concat};
ghost use Rattle.bstr.specs.Text.{lines_of};
ghost use Rattle.em_lineutil.specs.Lines as lines;
ghost use Rattle.em_lineutil.specs.Lines.{bare};

use bstr::ByteSlice;
use em_base::NoMemory;
use std::alloc::Global;

/// The lines, each with its newline.
pub(crate) fn lines(alloc: Global, text: &[u8]) -> Result<Vec<&[u8]>, NoMemory>
    ensures { IfOk result (λ v. map (λ l. l.now) v.items ≡ lines_of text.now) }
{
    Ok(text.lines_with_terminator().collect(alloc)?)
}

/// The line without its newline.
pub(crate) fn bare(line: &[u8]) -> &[u8]
    ensures { result.now ≡ bare line.now }
{
    match line.strip_suffix(b"\n".as_slice()) {
        Some(front) => front,
        None => line,
    }
}

/// How many bytes stand behind the first n lines.
fn length_behind(text: &[u8], n: u64) -> usize
    ensures count { result ≡ length (concat (drop n (lines_of text.now))) }
    ensures within { result ≤ length text.now }
{
    let mut lines = text.lines_with_terminator();
    let mut left = n;
    while left > 0 {
        if lines.next().is_none() {
            return 0;
        }
        left -= 1;
    }
    lines.as_bytes().len()
}

/// The first n lines. A step for each byte of them; takes no memory.
#[tactic(auto, unfolding(crate::specs::Lines::head))]
pub fn head(text: &[u8], n: u64) -> &[u8]
    ensures { result.now ≡ lines.head n text.now }
{
    &text[..text.len() - length_behind(text, n)]
}

/// How many lines there are.
fn count_lines(text: &[u8]) -> usize
    ensures { result ≡ length (lines_of text.now) }
{
    text.lines_with_terminator().count()
}

/// The last n lines. A step for each byte; takes no memory.
#[tactic(auto, unfolding(crate::specs::Lines::tail))]
pub fn tail(text: &[u8], n: u64) -> &[u8]
    ensures { result.now ≡ lines.tail n text.now }
{
    let passed = (count_lines(text) as u64).saturating_sub(n);
    let left = length_behind(text, passed);
    &text[text.len() - left..]
}
