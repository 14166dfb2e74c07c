//! Fields, and the output of commands.
ghost use Rattle.std.specs.Prelude.{◌≡◌, ◌≤◌, length, map, IfOk};
ghost use Rattle.std.specs.List.{slice_split, suffix_len};
ghost use Rattle.em_fields.specs.Parts as parts_of;
ghost use Rattle.em_fields.specs.Parts.{is_break, is_newline, filled};

use crate::part::{Part, glyphs};
use em_base::{NoMemory, Seq};
use em_glob::Glyph;
use std::alloc::Global;

/// Whether fields part here: at a space, a tab or a newline that isn't quoted.
fn is_break(part: &Part) -> bool
    ensures { result ≡ is_break part.now }
{
    match part {
        Part::Byte(glyph) => !glyph.quoted && matches!(glyph.byte, b' ' | b'\t' | b'\n'),
        Part::Quotes => false,
    }
}

/// What stands between the breaks.
fn between(alloc: Global, parts: &[Part]) -> Result<Vec<&[Part]>, NoMemory>
    ensures { IfOk result
        (λ v. map (λ f. f.now) v.items ≡ slice_split parts_of.is_break parts.now) }
{
    Ok(parts.split(|p| is_break(p)).collect(alloc)?)
}

/// The same without what is empty.
fn runs(alloc: Global, parts: &[Part]) -> Result<Vec<&[Part]>, NoMemory>
    ensures { IfOk result (λ v. map (λ f. f.now) v.items ≡ filled parts.now) }
{
    let mut runs = between(alloc, parts)?;
    runs.retain(|f| !f.is_empty());
    Ok(runs)
}

/// The fields: what stands between spaces, tabs and newlines that aren't quoted, where something
/// does, and be it an empty quoted text. Steps for each part.
pub fn fields(alloc: Global, parts: &[Part]) -> Result<Seq<Seq<Glyph>>, NoMemory>
    ensures { IfOk result (λ fs. fs ≡ parts_of.fields parts.now) }
{
    let runs = runs(alloc, parts)?;
    let mut fields = Seq::new(alloc);
    for run in &runs {
        fields.push(glyphs(alloc, run)?)?;
    }
    Ok(fields)
}

/// How many newlines the text ends with.
fn newlines_behind(text: &[u8]) -> usize
    ensures count { result ≡ suffix_len is_newline text.now }
    ensures within { result ≤ length text.now }
{
    text.iter().rev().take_while(|b| **b == b'\n').count()
}

/// The text without the newlines that it ends with. Takes no memory; a step for each of them.
pub fn without_newlines(text: &[u8]) -> &[u8]
    ensures { result.now ≡ parts_of.without_newlines text.now }
{
    &text[..text.len() - newlines_behind(text)]
}
