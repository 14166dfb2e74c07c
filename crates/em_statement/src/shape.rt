//! A line without what its references hold.
ghost use Rattle.std.specs.Prelude.{◌≡◌, ◌++◌, IfOk, OnOk};
ghost use Rattle.em_statement.specs.Shapes as shapes;
ghost use Rattle.em_statement.specs.Shapes.{blotted, part_shape, colons_of};

use em_base::{NoMemory, Span, Text};
use em_refs::{Bracket, Part, Parted, parts_before};
use std::alloc::Global;

/// What stands for a byte of a reference: a letter that means nothing in a makefile.
const BLOT: u8 = b'x';

/// Appends a blot for each byte.
fn add_blots(alloc: Global, shape: &mut Text, bytes: &[u8]) -> Result<(), NoMemory>
    ensures { OnOk result (shape.new ≡ shape.old ++ blotted bytes.now) }
{
    let blots: Vec<u8> = bytes.iter().map(|_| BLOT).collect(alloc)?;
    shape.add(&blots)
}

/// Appends the shape of a part of the text.
fn add_part(alloc: Global, shape: &mut Text, text: &[u8], part: Part) -> Result<(), NoMemory>
    ensures { OnOk result (shape.new ≡ shape.old ++ part_shape text.now part) }
{
    match part {
        Part::Literal(span) => shape.add(span.of(text)),
        Part::Dollar => shape.add(&[BLOT, BLOT]),
        Part::Ref(span) => {
            shape.add(&[BLOT])?;
            let name = span.of(text);
            if Bracket::before(text, span).is_none() {
                return add_blots(alloc, shape, name);
            }
            shape.add(&[BLOT])?;
            add_blots(alloc, shape, name)?;
            shape.add(&[BLOT])
        }
    }
}

/// The text with an `x` for each byte of a reference, so that what stands outside references is
/// found by its byte. Steps for each byte.
#[tactic(auto, unfolding(crate::specs::Shapes::shape))]
pub fn shape(alloc: Global, text: &[u8]) -> Result<Text, NoMemory>
    ensures { IfOk result (λ s. s ≡ shapes.shape text.now) }
{
    let Parted { parts, unclosed } = parts_before(alloc, text)?;
    let mut shape = Text::new(alloc);
    for part in parts.items() {
        add_part(alloc, &mut shape, text, *part)?;
    }
    if let Some(start) = unclosed {
        let end = text.len();
        add_blots(alloc, &mut shape, Span { start, end }.of(text))?;
    }
    Ok(shape)
}

/// The colons of a text, each behind a blank.
fn colons_of(alloc: Global, text: &[u8]) -> Result<Text, NoMemory>
    ensures { IfOk result (λ c. c ≡ colons_of text.now) }
{
    let mut colons = Text::new(alloc);
    for byte in text {
        if *byte == b':' {
            colons.add(b" :")?;
        }
    }
    Ok(colons)
}

/// The colons that are written outside references, each behind a blank. Steps for each byte.
#[tactic(auto, unfolding(crate::specs::Shapes::colons_in))]
pub fn colons_in(alloc: Global, text: &[u8]) -> Result<Text, NoMemory>
    ensures { IfOk result (λ c. c ≡ shapes.colons_in text.now) }
{
    let shape = shape(alloc, text)?;
    colons_of(alloc, shape.bytes())
}
