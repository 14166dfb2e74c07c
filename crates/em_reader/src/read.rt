//! The lines of texts, and the texts that they put in.
ghost use Rattle.std.specs.Prelude.{◌≡◌, option_copied};
ghost use Rattle.em_reading.specs.Faults.{is_free};
ghost use Rattle.em_reader.specs.Reading as steps;
ghost use Rattle.em_reader.specs.Reading.{read_text, read_evals, include_all};
ghost use Rattle.em_view.specs.Steps.{Does};

use crate::act::{act_alone, matched};
use crate::files::{content_of, eval_lines};
use crate::hear::{hear, hear_condition};
use em_base::{Place, Text};
use em_lines::{Line, Lines, joined};
use em_reading::{
    Heard, MakefileFault, OpenDefine, ReadNo, Reading, at, refused, refused_in, whole,
};
use em_statement::{Condition, Include, Statement, read_statement, words};
use em_view::{Desk, View};
use std::alloc::Global;

/// The lines of a text, in which so many texts may be put into one another.
#[cycle(reader)]
pub(crate) fn read_text<V: View>(
    alloc: Global,
    left: u32,
    desk: &mut Desk<V>,
    reading: &mut Reading,
    place: &Place,
    lines: &Lines,
) -> Result<(), ReadNo>
    ensures { Does is_free V.tells desk.old desk.new reading.old reading.new result
        (read_text left place.now lines.now) }
{
    if left == 0 {
        return Err(at(alloc, place, MakefileFault::Limit));
    }
    for line in lines.lines.items() {
        read_line(alloc, left - 1, desk, reading, line)?;
    }
    reading.end_text(alloc, &lines.too_long)
}

/// A line.
#[cycle(reader)]
fn read_line<V: View>(
    alloc: Global,
    left: u32,
    desk: &mut Desk<V>,
    reading: &mut Reading,
    line: &Line,
) -> Result<(), ReadNo>
    ensures { Does is_free V.tells desk.old desk.new reading.old reading.new result
        (steps.read_line (read_text left) line.now) }
{
    match reading.take_define() {
        Some(body) => in_body(alloc, left, desk, reading, line, body),
        None => {
            if line.tab {
                return reading.recipe(alloc, line);
            }
            let statement = read_statement(alloc, line.text.bytes())?;
            by_statement(alloc, left, desk, reading, &line.place, &statement)
        }
    }
}

/// A line of the body of a `define`.
#[cycle(reader)]
fn in_body<V: View>(
    alloc: Global,
    left: u32,
    desk: &mut Desk<V>,
    reading: &mut Reading,
    line: &Line,
    body: OpenDefine,
) -> Result<(), ReadNo>
    ensures { Does is_free V.tells desk.old desk.new reading.old reading.new result
        (steps.in_body (read_text left) line.now body) }
{
    if !body.ends(alloc, line)? {
        return reading.body_line(alloc, body, line);
    }
    let OpenDefine {
        place,
        assignment,
        nested: _,
        text,
    } = body;
    let statement = Statement::Assign(whole(alloc, assignment, text));
    statement_line(alloc, left, desk, reading, &place, &statement)
}

/// A statement.
#[cycle(reader)]
fn by_statement<V: View>(
    alloc: Global,
    left: u32,
    desk: &mut Desk<V>,
    reading: &mut Reading,
    place: &Place,
    statement: &Statement,
) -> Result<(), ReadNo>
    ensures { Does is_free V.tells desk.old desk.new reading.old reading.new result
        (steps.by_statement (read_text left) place.now statement.now) }
{
    match statement {
        Statement::If(condition) => if_line(alloc, left, desk, reading, place, condition),
        Statement::ElseIf(condition) => else_if_line(alloc, left, desk, reading, place, condition),
        Statement::Else => reading.other(alloc, place, None),
        Statement::Endif => reading.leave(alloc, place),
        Statement::Extraneous => Err(at(alloc, place, MakefileFault::Separator)),
        Statement::Blank => Ok(()),
        Statement::Define(assignment) => reading.define_line(alloc, place, assignment),
        Statement::Include(_) => active_line(alloc, left, desk, reading, place, statement),
        Statement::Undefine(_) => active_line(alloc, left, desk, reading, place, statement),
        Statement::Export(_) => active_line(alloc, left, desk, reading, place, statement),
        Statement::Unexport(_) => active_line(alloc, left, desk, reading, place, statement),
        Statement::Assign(_) => active_line(alloc, left, desk, reading, place, statement),
        Statement::Stray => active_line(alloc, left, desk, reading, place, statement),
        Statement::Unsupported(_) => active_line(alloc, left, desk, reading, place, statement),
        Statement::Rule(_) => active_line(alloc, left, desk, reading, place, statement),
    }
}

/// `ifeq` and its like.
#[cycle(reader)]
fn if_line<V: View>(
    alloc: Global,
    left: u32,
    desk: &mut Desk<V>,
    reading: &mut Reading,
    place: &Place,
    condition: &Condition,
) -> Result<(), ReadNo>
    ensures { Does is_free V.tells desk.old desk.new reading.old reading.new result
        (steps.if_line (read_text left) place.now condition.now) }
{
    if !reading.is_read() {
        return reading.enter(alloc, place, false);
    }
    let heard = hear_condition(alloc, desk, reading, place, condition)?;
    evaluated(alloc, left, desk, reading, place, &heard)?;
    reading.if_heard(alloc, place, condition, &heard)
}

/// `else` with a condition.
#[cycle(reader)]
fn else_if_line<V: View>(
    alloc: Global,
    left: u32,
    desk: &mut Desk<V>,
    reading: &mut Reading,
    place: &Place,
    condition: &Condition,
) -> Result<(), ReadNo>
    ensures { Does is_free V.tells desk.old desk.new reading.old reading.new result
        (steps.else_if_line (read_text left) place.now condition.now) }
{
    if !reading.nest.may_turn() {
        return reading.other(alloc, place, Some(false));
    }
    let heard = hear_condition(alloc, desk, reading, place, condition)?;
    evaluated(alloc, left, desk, reading, place, &heard)?;
    reading.else_if_heard(alloc, place, condition, &heard)
}

/// A statement that is passed over in a branch that isn't read.
#[cycle(reader)]
fn active_line<V: View>(
    alloc: Global,
    left: u32,
    desk: &mut Desk<V>,
    reading: &mut Reading,
    place: &Place,
    statement: &Statement,
) -> Result<(), ReadNo>
    ensures { Does is_free V.tells desk.old desk.new reading.old reading.new result
        (steps.active_line (read_text left) place.now statement.now) }
{
    if !reading.is_read() {
        return Ok(());
    }
    statement_line(alloc, left, desk, reading, place, statement)
}

/// A statement that is read.
#[cycle(reader)]
fn statement_line<V: View>(
    alloc: Global,
    left: u32,
    desk: &mut Desk<V>,
    reading: &mut Reading,
    place: &Place,
    statement: &Statement,
) -> Result<(), ReadNo>
    ensures { Does is_free V.tells desk.old desk.new reading.old reading.new result
        (steps.statement_line (read_text left) place.now statement.now) }
{
    reading.close_rule(alloc)?;
    let heard = hear(alloc, desk, reading, place, statement)?;
    evaluated(alloc, left, desk, reading, place, &heard)?;
    reading.close_rule(alloc)?;
    match included_in(statement) {
        Some(include) => include_heard(alloc, left, desk, reading, place, include, &heard),
        None => act_alone(alloc, desk, reading, place, statement, &heard),
    }
}

/// The `include` that the statement is, if it is one.
fn included_in(statement: &Statement) -> Option<&Include>
    ensures { option_copied result ≡ steps.included_in statement.now }
{
    match statement {
        Statement::Include(include) => Some(include),
        Statement::Blank => None,
        Statement::If(_) => None,
        Statement::Else => None,
        Statement::ElseIf(_) => None,
        Statement::Endif => None,
        Statement::Extraneous => None,
        Statement::Define(_) => None,
        Statement::Undefine(_) => None,
        Statement::Export(_) => None,
        Statement::Unexport(_) => None,
        Statement::Assign(_) => None,
        Statement::Stray => None,
        Statement::Unsupported(_) => None,
        Statement::Rule(_) => None,
    }
}

/// What the texts of a statement have handed to `eval`.
#[cycle(reader)]
fn evaluated<V: View>(
    alloc: Global,
    left: u32,
    desk: &mut Desk<V>,
    reading: &mut Reading,
    place: &Place,
    heard: &Heard,
) -> Result<(), ReadNo>
    ensures { Does is_free V.tells desk.old desk.new reading.old reading.new result
        (steps.evaluated (read_text left) place.now heard.now) }
{
    let texts = reading.take_evals(alloc);
    match refused_in(heard) {
        Some(_) => Ok(()),
        None => read_evals(alloc, left, desk, reading, place, texts.items()),
    }
}

/// Texts that `eval` was given, in order.
#[cycle(reader)]
fn read_evals<V: View>(
    alloc: Global,
    left: u32,
    desk: &mut Desk<V>,
    reading: &mut Reading,
    place: &Place,
    texts: &[Text],
) -> Result<(), ReadNo>
    ensures { Does is_free V.tells desk.old desk.new reading.old reading.new result
        (read_evals (read_text left) place.now texts.now) }
{
    for text in texts {
        let lines = eval_lines(alloc, place, text.bytes())?;
        read_text(alloc, left, desk, reading, place, &lines)?;
    }
    Ok(())
}

/// `include`, when its names are expanded. All of them are known before the first file is asked
/// for.
#[cycle(reader)]
fn include_heard<V: View>(
    alloc: Global,
    left: u32,
    desk: &mut Desk<V>,
    reading: &mut Reading,
    place: &Place,
    include: &Include,
    heard: &Heard,
) -> Result<(), ReadNo>
    ensures { Does is_free V.tells desk.old desk.new reading.old reading.new result
        (steps.include_heard (read_text left) place.now include.now heard.now) }
{
    if let Some(name) = refused_in(heard) {
        return Err(refused(alloc, place, name.bytes()));
    }
    let words = words(alloc, heard.first.text.bytes())?;
    let names = matched(alloc, desk, reading, place, words.items())?;
    include_all(
        alloc,
        left,
        desk,
        reading,
        place,
        include.required,
        names.items(),
    )
}

/// The files of these names, in order.
#[cycle(reader)]
fn include_all<V: View>(
    alloc: Global,
    left: u32,
    desk: &mut Desk<V>,
    reading: &mut Reading,
    place: &Place,
    required: bool,
    names: &[Text],
) -> Result<(), ReadNo>
    ensures { Does is_free V.tells desk.old desk.new reading.old reading.new result
        (include_all (read_text left) required place.now names.now) }
{
    for name in names {
        include_one(alloc, left, desk, reading, place, required, name)?;
    }
    Ok(())
}

/// The file of this name.
#[cycle(reader)]
fn include_one<V: View>(
    alloc: Global,
    left: u32,
    desk: &mut Desk<V>,
    reading: &mut Reading,
    place: &Place,
    required: bool,
    name: &Text,
) -> Result<(), ReadNo>
    ensures { Does is_free V.tells desk.old desk.new reading.old reading.new result
        (steps.include_one (read_text left) required place.now name.now) }
{
    match content_of(alloc, desk, reading, place, name.bytes())? {
        Some(bytes) => {
            reading.opens(alloc, name.bytes())?;
            let lines = joined(alloc, name, bytes.bytes())?;
            read_text(alloc, left, desk, reading, place, &lines)
        }
        None => reading.lacks(alloc, required, place, name.bytes()),
    }
}
