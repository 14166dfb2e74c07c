//! Comments.
ghost use Rattle.std.specs.Prelude.{◌≡◌, ◌==◌, ◌≤◌, ◌++◌, ◌∷◌, ℕ, List, false, Ok, IfOk, OnOk, length, if◌then◌else◌};
ghost use Rattle.std.specs.List.{list_any};
ghost use Rattle.em_refs.specs.declared.part.Part.{Part};
ghost use Rattle.em_refs.specs.declared.part.Part.TheVariants.{Ref};
ghost use Rattle.em_refs.specs.Parts.{source};
ghost use Rattle.em_lines.specs.Comments as comments;
ghost use Rattle.em_lines.specs.Comments.{bare_parts, unescaped};

use em_base::{NoMemory, Span, Text};
use em_refs::{Bracket, Part, Parted, parts_before};
use std::alloc::Global;

/// How many bytes of plain text stand before its comment: all of them where there is none. Steps
/// for each of them.
pub fn comment_start(plain: &[u8]) -> usize
    ensures start { result ≡ comments.comment_start plain.now }
    ensures within { result ≤ length plain.now }
{
    let mut backslash = false;
    for (at, byte) in plain.iter().enumerate() {
        if *byte == b'#' && !backslash {
            return at;
        }
        backslash = *byte == b'\\';
    }
    plain.len()
}

/// Appends plain text, in which each `\#` becomes `#`.
fn add_unescaped(text: &mut Text, plain: &[u8]) -> Result<(), NoMemory>
    ensures { OnOk result (text.new ≡ text.old ++ unescaped plain.now) }
{
    for (at, byte) in plain.iter().enumerate() {
        if *byte != b'\\' || plain.get(at + 1) != Some(&b'#') {
            text.add(&[*byte])?;
        }
    }
    Ok(())
}

/// Appends a reference of the bytes as it was written: `$` and its byte, or its name in its
/// brackets. `span` is that of the byte or the name. Steps for each byte.
pub fn add_reference(text: &mut Text, bytes: &[u8], span: Span) -> Result<(), NoMemory>
    ensures { OnOk result (text.new ≡ text.old ++ source bytes.now (Ref span)) }
{
    text.add(b"$")?;
    let name = span.of(bytes);
    let Some(bracket) = Bracket::before(bytes, span) else {
        return text.add(name);
    };
    text.add(&[bracket.opening()])?;
    text.add(name)?;
    text.add(&[bracket.closing()])
}

/// Appends a part of the bytes without its comment, and tells whether it has one.
fn add_part(text: &mut Text, bytes: &[u8], part: Part) -> Result<bool, NoMemory>
    ensures { IfOk result (λ cut. (ps : List Part) (behind : List ℕ)
        → text.old ++ bare_parts bytes.now (part ∷ ps) behind
        ≡ (if cut then text.new else text.new ++ bare_parts bytes.now ps behind)) }
{
    match part {
        Part::Literal(span) => {
            let plain = span.of(bytes);
            let start = comment_start(plain);
            add_unescaped(text, &plain[..start])?;
            return Ok(start < plain.len());
        }
        Part::Dollar => text.add(b"$$")?,
        Part::Ref(span) => add_reference(text, bytes, span)?,
    }
    Ok(false)
}

/// The line without its comment: the first `#` outside references that has no backslash right
/// before it begins one; `\#` is `#`. A reference stands as it is, also one that isn't closed, with
/// all behind it. Steps for each byte; a line without `#` is handed back without a copy.
pub fn bare(alloc: Global, line: Text) -> Result<Text, NoMemory>
    ensures text { IfOk result (λ t. t ≡ comments.bare line) }
    ensures plain { list_any (λ b. b == 35) line ≡ false → result ≡ Ok line }
{
    if !line.bytes().contains(&b'#') {
        return Ok(line);
    }
    let bytes = line.bytes();
    let Parted { parts, unclosed } = parts_before(alloc, bytes)?;
    let mut text = Text::new(alloc);
    for part in parts.items() {
        if add_part(&mut text, bytes, *part)? {
            return Ok(text);
        }
    }
    if let Some(start) = unclosed {
        let end = bytes.len();
        text.add(Span { start, end }.of(bytes))?;
    }
    Ok(text)
}
