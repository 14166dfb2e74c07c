//! Lines of recipes that go on within a reference.
ghost use Rattle.std.specs.Prelude.{◌≡◌, ◌++◌, ◌∷◌, ℕ, List, IfOk, OnOk};
ghost use Rattle.em_lines.specs.Folding as folding;
ghost use Rattle.em_lines.specs.Folding.{folded, folded_part, folded_rows};

use crate::joining::{first_row, goes_on, splice};
use em_base::{NoMemory, Span, Text};
use em_refs::{Bracket, Part, Parted, parts_before};
use std::alloc::Global;

/// A row behind the rows that were joined so far: it is joined with them where they go on; else
/// they are put to the text.
fn with_row(
    alloc: Global,
    text: &mut Text,
    joined: Vec<u8>,
    row: &[u8],
) -> Result<Vec<u8>, NoMemory>
    ensures { IfOk result (λ next. (more : List (List ℕ))
        → text.old ++ folded_rows (joined.items ∷ row.now ∷ more)
        ≡ text.new ++ folded_rows (next.items ∷ more)) }
{
    let mut joined = joined;
    if goes_on(joined.as_slice()) {
        splice(&mut joined, row)?;
        return Ok(joined);
    }
    joined.push(b'\n')?;
    text.add(joined.as_slice())?;
    Ok(Vec::from_slice(alloc, row)?)
}

/// Appends the bytes, in which each backslash-newline, with the blanks round it, is one space.
fn add_folded(alloc: Global, text: &mut Text, bytes: &[u8]) -> Result<(), NoMemory>
    ensures { OnOk result (text.new ≡ text.old ++ folded bytes.now) }
{
    let (first, mut rest) = first_row(bytes);
    let mut joined = Vec::from_slice(alloc, first)?;
    while let Some(bytes) = rest {
        let (row, behind) = first_row(bytes);
        joined = with_row(alloc, text, joined, row)?;
        rest = behind;
    }
    text.add(joined.as_slice())
}

/// Appends a part of the line.
fn add_part(alloc: Global, text: &mut Text, line: &[u8], part: Part) -> Result<(), NoMemory>
    ensures { OnOk result (text.new ≡ text.old ++ folded_part line.now part) }
{
    match part {
        Part::Literal(span) => text.add(span.of(line)),
        Part::Dollar => text.add(b"$$"),
        Part::Ref(span) => {
            text.add(b"$")?;
            let name = span.of(line);
            let Some(bracket) = Bracket::before(line, span) else {
                return add_folded(alloc, text, name);
            };
            text.add(&[bracket.opening()])?;
            add_folded(alloc, text, name)?;
            text.add(&[bracket.closing()])
        }
    }
}

/// A line of a recipe as it is kept: within a reference, from its bracket to the one that closes
/// it, each backslash-newline is one space, with the blanks round it, as in GNU make; elsewhere it
/// stays, also behind the `$` of a reference that isn't closed. Steps for each byte, which is
/// copied three times at most.
pub fn folded_references(alloc: Global, line: &[u8]) -> Result<Text, NoMemory>
    ensures { IfOk result (λ t. t ≡ folding.folded_references line.now) }
{
    let Parted { parts, unclosed } = parts_before(alloc, line)?;
    let mut text = Text::new(alloc);
    for part in parts.items() {
        add_part(alloc, &mut text, line, *part)?;
    }
    if let Some(start) = unclosed {
        let end = line.len();
        text.add(Span { start, end }.of(line))?;
    }
    Ok(text)
}
