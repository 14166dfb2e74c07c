//! The expansion of a statement's texts.
ghost use Rattle.std.specs.Prelude.{◌≡◌, [], false, IfOk, map};
ghost use Rattle.em_refs.specs.Parts.{source};
ghost use Rattle.em_reading.specs.Faults.{is_free};
ghost use Rattle.em_reader.specs.Hearing as hearing;
ghost use Rattle.em_reader.specs.Hearing.{both, caught_of, heard_pieces, joined, nothing, plain};
ghost use Rattle.em_view.specs.Performs as performs;
ghost use Rattle.em_view.specs.Steps.{Does};

use em_base::{NoMemory, Place, Seq, Span, Text};
use em_expand::{ExpandNo, Layers, expand};
use em_lines::add_reference;
use em_reading::{Expanded, Heard, ReadNo, Reading, expand_fault, is_expanded};
use em_refs::{Part, Parted, parts_before};
use em_statement::{Assignment, Condition, Sides, Statement};
use em_view::{Desk, View};
use std::alloc::Global;

/// A text that was expanded whole.
fn plain(text: Text) -> Expanded
    ensures { result ≡ plain text }
{
    Expanded {
        text,
        refused: None,
    }
}

/// No text.
fn nothing(alloc: Global) -> Expanded
    ensures { result ≡ nothing }
{
    plain(Text::new(alloc))
}

/// A text that was expanded up to a function that is refused.
fn cut_off(text: Text, name: Text) -> Expanded
    ensures { result ≡ hearing.cut_off text name }
{
    Expanded {
        text,
        refused: Some(name),
    }
}

/// A fault of an expansion: a function that is refused is kept.
fn caught(alloc: Global, place: &Place, e: ExpandNo) -> Result<Expanded, ReadNo>
    ensures { performs.is_free is_free result ≡ false → result ≡ caught_of place.now e }
{
    match e {
        ExpandNo::Refused(name) => Ok(cut_off(Text::new(alloc), name)),
        ExpandNo::NoMemory => Err(ReadNo::NoMemory),
        ExpandNo::Spent => Err(expand_fault(alloc, place, ExpandNo::Spent)),
        ExpandNo::SelfReference(name) => {
            Err(expand_fault(alloc, place, ExpandNo::SelfReference(name)))
        }
        ExpandNo::UserError(text) => Err(expand_fault(alloc, place, ExpandNo::UserError(text))),
        ExpandNo::BadArgument(name) => Err(expand_fault(alloc, place, ExpandNo::BadArgument(name))),
        ExpandNo::Unclosed => Err(expand_fault(alloc, place, ExpandNo::Unclosed)),
        ExpandNo::TooDeep => Err(expand_fault(alloc, place, ExpandNo::TooDeep)),
    }
}

/// The expansion of a text, up to a function that is refused.
pub(crate) fn heard<V: View>(
    alloc: Global,
    desk: &mut Desk<V>,
    reading: &mut Reading,
    place: &Place,
    text: &[u8],
) -> Result<Expanded, ReadNo>
    ensures { Does is_free V.tells desk.old desk.new reading.old reading.new result
        (hearing.heard place.now text.now) }
{
    let shared = &reading.book.vars;
    match expand(
        alloc,
        text,
        &Layers { shared, own: &[] },
        &reading.cwd,
        place,
        desk,
        &mut reading.spoken,
    ) {
        Ok(text) => Ok(plain(text)),
        Err(e) => caught(alloc, place, e),
    }
}

/// A part of a text as it was written.
fn source(alloc: Global, bytes: &[u8], part: Part) -> Result<Text, NoMemory>
    ensures { IfOk result (λ t. t ≡ source bytes.now part) }
{
    let mut text = Text::new(alloc);
    match part {
        Part::Literal(span) => text.add(span.of(bytes))?,
        Part::Dollar => text.add(b"$$")?,
        Part::Ref(span) => add_reference(&mut text, bytes, span)?,
    }
    Ok(text)
}

/// The parts of a text as they were written.
fn sources(alloc: Global, bytes: &[u8], parts: &[Part]) -> Result<Seq<Text>, NoMemory>
    ensures { IfOk result (λ s. s ≡ map (source bytes.now) parts.now) }
{
    let mut texts = Seq::new(alloc);
    for part in parts {
        texts.push(source(alloc, bytes, *part)?)?;
    }
    Ok(texts)
}

/// The pieces of a text, with what isn't closed at the end.
fn pieces(alloc: Global, text: &[u8]) -> Result<Seq<Text>, NoMemory>
    ensures { IfOk result (λ s. s ≡ hearing.pieces text.now) }
{
    let Parted { parts, unclosed } = parts_before(alloc, text)?;
    let mut texts = sources(alloc, text, parts.items())?;
    if let Some(start) = unclosed {
        let end = text.len();
        texts.push(Text::from_slice(alloc, Span { start, end }.of(text))?)?;
    }
    Ok(texts)
}

/// The text so far with one piece more.
fn joined(so_far: Expanded, more: Expanded) -> Result<Expanded, NoMemory>
    ensures { IfOk result (λ e. e ≡ joined so_far.text more) }
{
    let Expanded {
        mut text,
        refused: _,
    } = so_far;
    text.add(more.text.bytes())?;
    let refused = more.refused;
    Ok(Expanded { text, refused })
}

/// Pieces one after another, up to a function that is refused.
fn heard_pieces<V: View>(
    alloc: Global,
    desk: &mut Desk<V>,
    reading: &mut Reading,
    place: &Place,
    pieces: &[Text],
) -> Result<Expanded, ReadNo>
    ensures { Does is_free V.tells desk.old desk.new reading.old reading.new result
        (heard_pieces place.now [] pieces.now) }
{
    let mut all = nothing(alloc);
    for piece in pieces {
        let more = heard(alloc, desk, reading, place, piece.bytes())?;
        all = joined(all, more)?;
        if all.refused.is_some() {
            return Ok(all);
        }
    }
    Ok(all)
}

/// The head of a rule: what stands in front of a function that is refused is known.
fn heard_head<V: View>(
    alloc: Global,
    desk: &mut Desk<V>,
    reading: &mut Reading,
    place: &Place,
    text: &[u8],
) -> Result<Expanded, ReadNo>
    ensures { Does is_free V.tells desk.old desk.new reading.old reading.new result
        (hearing.heard_head place.now text.now) }
{
    let pieces = pieces(alloc, text)?;
    heard_pieces(alloc, desk, reading, place, pieces.items())
}

/// Two texts.
fn both(first: Expanded, second: Expanded) -> Heard
    ensures { result ≡ both first second }
{
    Heard { first, second }
}

/// No texts.
fn no_texts(alloc: Global) -> Heard
    ensures { result ≡ both nothing nothing }
{
    both(nothing(alloc), nothing(alloc))
}

/// One text.
fn one<V: View>(
    alloc: Global,
    desk: &mut Desk<V>,
    reading: &mut Reading,
    place: &Place,
    text: &[u8],
) -> Result<Heard, ReadNo>
    ensures { Does is_free V.tells desk.old desk.new reading.old reading.new result
        (hearing.one place.now text.now) }
{
    let first = heard(alloc, desk, reading, place, text)?;
    Ok(both(first, nothing(alloc)))
}

/// A text behind another one, unless something in that was refused.
fn heard_after<V: View>(
    alloc: Global,
    desk: &mut Desk<V>,
    reading: &mut Reading,
    refused: &Option<Text>,
    place: &Place,
    text: &[u8],
) -> Result<Expanded, ReadNo>
    ensures { Does is_free V.tells desk.old desk.new reading.old reading.new result
        (hearing.heard_after refused.now place.now text.now) }
{
    match refused {
        None => heard(alloc, desk, reading, place, text),
        Some(_) => Ok(nothing(alloc)),
    }
}

/// The two sides of a condition.
fn two<V: View>(
    alloc: Global,
    desk: &mut Desk<V>,
    reading: &mut Reading,
    place: &Place,
    sides: &Sides,
) -> Result<Heard, ReadNo>
    ensures { Does is_free V.tells desk.old desk.new reading.old reading.new result
        (hearing.two place.now sides.now) }
{
    let first = heard(alloc, desk, reading, place, sides.left.bytes())?;
    let second = heard_after(
        alloc,
        desk,
        reading,
        &first.refused,
        place,
        sides.right.bytes(),
    )?;
    Ok(both(first, second))
}

/// The value of an assignment, expanded where it has to be.
fn value_of<V: View>(
    alloc: Global,
    desk: &mut Desk<V>,
    reading: &mut Reading,
    place: &Place,
    assignment: &Assignment,
    name: &Expanded,
) -> Result<Expanded, ReadNo>
    ensures { Does is_free V.tells desk.old desk.new reading.old reading.new result
        (hearing.value_of_assignment place.now assignment.now name.now) }
{
    let value = assignment.value.bytes();
    if is_expanded(assignment.operator, &reading.book.vars, name.text.bytes()) {
        return heard_after(alloc, desk, reading, &name.refused, place, value);
    }
    Ok(plain(Text::from_slice(alloc, value)?))
}

/// The name and the value of an assignment.
fn hear_assignment<V: View>(
    alloc: Global,
    desk: &mut Desk<V>,
    reading: &mut Reading,
    place: &Place,
    assignment: &Assignment,
) -> Result<Heard, ReadNo>
    ensures { Does is_free V.tells desk.old desk.new reading.old reading.new result
        (hearing.hear_assignment place.now assignment.now) }
{
    let name = heard(alloc, desk, reading, place, assignment.name.bytes())?;
    let value = value_of(alloc, desk, reading, place, assignment, &name)?;
    Ok(both(name, value))
}

/// The texts of a condition.
pub(crate) fn hear_condition<V: View>(
    alloc: Global,
    desk: &mut Desk<V>,
    reading: &mut Reading,
    place: &Place,
    condition: &Condition,
) -> Result<Heard, ReadNo>
    ensures { Does is_free V.tells desk.old desk.new reading.old reading.new result
        (hearing.hear_condition place.now condition.now) }
{
    match condition {
        Condition::Same(sides) => two(alloc, desk, reading, place, sides),
        Condition::Different(sides) => two(alloc, desk, reading, place, sides),
        Condition::Defined(text) => one(alloc, desk, reading, place, text.bytes()),
        Condition::Undefined(text) => one(alloc, desk, reading, place, text.bytes()),
        Condition::Malformed => Ok(no_texts(alloc)),
    }
}

/// The head of a rule.
fn head<V: View>(
    alloc: Global,
    desk: &mut Desk<V>,
    reading: &mut Reading,
    place: &Place,
    text: &[u8],
) -> Result<Heard, ReadNo>
    ensures { Does is_free V.tells desk.old desk.new reading.old reading.new result
        (hearing.head place.now text.now) }
{
    let first = heard_head(alloc, desk, reading, place, text)?;
    Ok(both(first, nothing(alloc)))
}

/// The texts of a statement that is no condition.
pub(crate) fn hear<V: View>(
    alloc: Global,
    desk: &mut Desk<V>,
    reading: &mut Reading,
    place: &Place,
    statement: &Statement,
) -> Result<Heard, ReadNo>
    ensures { Does is_free V.tells desk.old desk.new reading.old reading.new result
        (hearing.hear place.now statement.now) }
{
    match statement {
        Statement::If(_) => Ok(no_texts(alloc)),
        Statement::ElseIf(_) => Ok(no_texts(alloc)),
        Statement::Include(i) => one(alloc, desk, reading, place, i.names.bytes()),
        Statement::Undefine(u) => one(alloc, desk, reading, place, u.name.bytes()),
        Statement::Export(names) => one(alloc, desk, reading, place, names.bytes()),
        Statement::Unexport(names) => one(alloc, desk, reading, place, names.bytes()),
        Statement::Assign(a) => hear_assignment(alloc, desk, reading, place, a),
        Statement::Rule(line) => head(alloc, desk, reading, place, line.head.bytes()),
        Statement::Blank => Ok(no_texts(alloc)),
        Statement::Else => Ok(no_texts(alloc)),
        Statement::Endif => Ok(no_texts(alloc)),
        Statement::Extraneous => Ok(no_texts(alloc)),
        Statement::Define(_) => Ok(no_texts(alloc)),
        Statement::Stray => Ok(no_texts(alloc)),
        Statement::Unsupported(_) => Ok(no_texts(alloc)),
    }
}
