//! `uniq`: adjacent equal lines once.
ghost use Rattle.std.specs.Prelude.{◌≡◌, ◌++◌, ◌<◌, ◌^◌, IfOk, OnOk};
ghost use Rattle.em_lineutil.specs.Runs as runs;
ghost use Rattle.em_lineutil.specs.Runs.{in_seven, shown_run};

use crate::line::bare;
use bstr::ByteSlice;
use em_base::{NoMemory, Text};
use itoa::Buffer;
use std::alloc::Global;

/// Appends the digits, right in seven places.
fn add_in_seven(out: &mut Text, digits: &[u8]) -> Result<(), NoMemory>
    ensures { OnOk result (out.new ≡ out.old ++ in_seven digits.now) }
{
    out.add(&b"       "[..7 - digits.len().min(7)])?;
    out.add(digits)
}

/// Appends a run: its first line, behind its count where it is counted.
fn add_run(out: &mut Text, counted: bool, first: &[u8], count: usize) -> Result<(), NoMemory>
    ensures { OnOk result (out.new ≡ out.old ++ shown_run counted (first.now, count)) }
{
    if counted {
        add_in_seven(out, Buffer::new().format(count).as_bytes())?;
        out.add(b" ")?;
    }
    out.add(first)
}

/// Of adjacent lines that are equal the first one; where they are counted, behind their number,
/// which is right in seven places, and a space. A last line without a newline is equal to one with
/// it. A step for each byte.
#[tactic(auto, unfolding(crate::specs::Runs::uniq_text))]
pub fn uniq_text(alloc: Global, counted: bool, text: &[u8]) -> Result<Text, NoMemory>
    ensures { IfOk result (λ t. t ≡ runs.uniq_text counted text.now) }
{
    let mut out = Text::new(alloc);
    let mut lines = text.lines_with_terminator();
    let Some(mut first) = lines.next() else {
        return Ok(out);
    };
    let mut count = 1;
    for line in lines {
        if bare(line) == bare(first) {
            count += 1;
        } else {
            add_run(&mut out, counted, first, count)?;
            first = line;
            count = 1;
        }
    }
    add_run(&mut out, counted, first, count)?;
    Ok(out)
}
