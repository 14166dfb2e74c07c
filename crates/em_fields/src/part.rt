//! What an expansion gives, byte by byte.
ghost use Rattle.std.specs.Prelude.{◌≡◌, ◌++◌, ◌∷◌, [], ◌≤◌, length, IfOk};
ghost use Rattle.em_fields.specs.Parts as parts_of;
ghost use Rattle.em_fields.specs.Parts.{mark, marked, joined, glyph_of};

use em_base::{NoMemory, Seq, Text};
use em_glob::Glyph;
use std::alloc::Global;

/// A part of what an expansion gives.
#[derive(Clone, Copy, Debug, PartialEq, Eq)]
pub enum Part {
    /// A byte, quoted or not.
    Byte(Glyph),
    /// A quoted text begins here: the field is there though nothing may stand in it.
    Quotes,
}

impl Part {
    /// The byte, where it is one.
    fn glyph(self) -> Option<Glyph>
        ensures { result ≡ glyph_of self }
    {
        match self {
            Part::Byte(glyph) => Some(glyph),
            Part::Quotes => None,
        }
    }

    /// How many bytes it is.
    fn weight(self) -> usize
        ensures weight { result ≡ length (parts_of.glyphs (self ∷ [])) }
        ensures bound { result ≤ 1 }
    {
        match self {
            Part::Byte(_) => 1,
            Part::Quotes => 0,
        }
    }
}

/// Whether a quoted text begins here.
fn is_mark(part: &Part) -> bool
    ensures { result ≡ parts_of.ends_marked (part.now ∷ []) }
{
    match part {
        Part::Quotes => true,
        Part::Byte(_) => false,
    }
}

/// Whether a quoted text begins at the end.
fn ends_marked(parts: &[Part]) -> bool
    ensures { result ≡ parts_of.ends_marked parts.now }
{
    match parts.split_last() {
        Some((last, _)) => is_mark(last),
        None => false,
    }
}

/// What is added behind parts that end so: the mark is there.
fn behind_mark(marked: bool, parts: &[Part]) -> &[Part]
    ensures { result.now ≡ parts_of.behind_mark marked parts.now }
{
    match parts.split_first() {
        Some((Part::Quotes, rest)) if marked => rest,
        _ => parts,
    }
}

/// Adds parts. Two marks side by side are one, so there are never more of them than bytes and one.
/// Steps for each part that is added.
pub fn add_parts(parts: &mut Seq<Part>, more: &[Part]) -> Result<(), NoMemory>
    ensures { IfOk result (λ u. parts.new ≡ joined parts.old more.now) }
{
    let more = behind_mark(ends_marked(parts.items()), more);
    for part in more {
        parts.push(*part)?;
    }
    Ok(())
}

/// Adds the place where a quoted text begins, if one does. Steps are constant.
pub fn add_mark(parts: &mut Seq<Part>, quoted: bool) -> Result<(), NoMemory>
    ensures { IfOk result (λ u. parts.new ≡ joined parts.old (mark quoted)) }
{
    if quoted {
        add_parts(parts, &[Part::Quotes])?;
    }
    Ok(())
}

/// Adds the bytes, quoted or not. Steps for each byte.
pub fn add_bytes(parts: &mut Seq<Part>, quoted: bool, text: &[u8]) -> Result<(), NoMemory>
    ensures { IfOk result (λ u. parts.new ≡ joined parts.old (marked quoted text.now)) }
{
    add_mark(parts, quoted)?;
    for byte in text {
        parts.push(Part::Byte(Glyph {
            byte: *byte,
            quoted,
        }))?;
    }
    Ok(())
}

/// How many bytes there are. Takes no memory; a step for each part.
pub fn size(parts: &[Part]) -> usize
    ensures size { result ≡ length (parts_of.glyphs parts.now) }
    ensures bound { result ≤ length parts.now }
{
    let mut size = 0;
    for part in parts {
        size += part.weight();
    }
    size
}

fn add_glyph(glyphs: &mut Seq<Glyph>, part: Part) -> Result<(), NoMemory>
    ensures { IfOk result (λ u. glyphs.new ≡ glyphs.old ++ parts_of.glyphs (part ∷ [])) }
{
    if let Part::Byte(glyph) = part {
        glyphs.push(glyph)?;
    }
    Ok(())
}

/// The bytes, each with whether it is quoted. Steps for each part.
pub fn glyphs(alloc: Global, parts: &[Part]) -> Result<Seq<Glyph>, NoMemory>
    ensures { IfOk result (λ gs. gs ≡ parts_of.glyphs parts.now) }
{
    let mut glyphs = Seq::new(alloc);
    for part in parts {
        add_glyph(&mut glyphs, *part)?;
    }
    Ok(glyphs)
}

fn add_byte(text: &mut Text, part: Part) -> Result<(), NoMemory>
    ensures { IfOk result (λ u. text.new ≡ text.old ++ parts_of.bytes (part ∷ [])) }
{
    if let Part::Byte(glyph) = part {
        text.add(&[glyph.byte])?;
    }
    Ok(())
}

/// The bytes alone. Steps for each part.
pub fn bytes(alloc: Global, parts: &[Part]) -> Result<Text, NoMemory>
    ensures { IfOk result (λ t. t ≡ parts_of.bytes parts.now) }
{
    let mut text = Text::new(alloc);
    for part in parts {
        add_byte(&mut text, *part)?;
    }
    Ok(text)
}
