//! Assignments.
ghost use Rattle.std.specs.Prelude.{◌≡◌, ◌<◌, ◌^◌, IfOk, IfSome};
ghost use Rattle.std.specs.List.{position};
ghost use Rattle.em_statement.specs.Assignments as assignments;
ghost use Rattle.em_statement.specs.Assignments.{is_mark, at_equals, at_colon, at_mark, assignment_at};

use crate::shape::shape;
use crate::split::{before, from};
use em_base::{NoMemory, Text, trim, trim_start};
use std::alloc::Global;

/// An assignment's operator.
#[derive(Clone, Copy, Debug, PartialEq, Eq)]
pub enum Operator {
    /// `=`
    Recursive,
    /// `:=` or `::=`
    Simple,
    /// `?=`
    IfUndefined,
    /// `+=`
    Append,
    /// `!=`, which is refused
    Shell,
    /// `:::=`, which is refused
    Posix,
}

/// What stands before an assignment.
#[derive(Clone, Copy, Debug, PartialEq, Eq)]
pub struct Modifiers {
    /// `override`
    pub overriding: bool,
    /// `export`
    pub exported: bool,
}

/// An operator in a text: the bytes from `start` up to `end`.
#[derive(Clone, Copy, Debug, PartialEq, Eq)]
pub struct Sign {
    pub start: usize,
    pub end: usize,
    pub operator: Operator,
}

/// An assignment, or a `define`, whose value comes on the lines behind it.
#[derive(Debug, Drop, PartialEq, Eq)]
pub struct Assignment {
    pub modifiers: Modifiers,
    /// Without blanks round it, not expanded.
    pub name: Text,
    pub operator: Operator,
    /// Without blanks before it, not expanded.
    pub value: Text,
}

/// The sign that begins and ends so far from a place.
fn found_sign(start: usize, end: usize, operator: Operator) -> Option<Sign>
    ensures { result ≡ assignments.found_sign start end operator }
{
    Some(Sign {
        start,
        end,
        operator,
    })
}

/// An `=` at a place, by what stands before it.
fn at_equals(at: usize, before: &[u8]) -> Option<Sign>
    requires { at < 2 ^ 63 }
    ensures { result ≡ at_equals at before.now }
{
    let last = at.saturating_sub(1);
    if before.ends_with(b"?") {
        found_sign(last, at + 1, Operator::IfUndefined)
    } else if before.ends_with(b"+") {
        found_sign(last, at + 1, Operator::Append)
    } else if before.ends_with(b"!") {
        found_sign(last, at + 1, Operator::Shell)
    } else {
        found_sign(at, at + 1, Operator::Recursive)
    }
}

/// A colon at a place, by what begins there.
fn at_colon(at: usize, rest: &[u8]) -> Option<Sign>
    requires { at < 2 ^ 63 }
    ensures { result ≡ at_colon at rest.now }
{
    if rest.starts_with(b":=") {
        found_sign(at, at + 2, Operator::Simple)
    } else if rest.starts_with(b"::=") {
        found_sign(at, at + 3, Operator::Simple)
    } else if rest.starts_with(b":::=") {
        found_sign(at, at + 4, Operator::Posix)
    } else {
        None
    }
}

/// The operator at an `=` or a colon.
fn at_mark(shape: &[u8], at: usize) -> Option<Sign>
    requires { at < 2 ^ 63 }
    ensures { result ≡ at_mark shape.now at }
{
    let rest = from(at, shape);
    if rest.starts_with(b"=") {
        at_equals(at, before(at, shape))
    } else {
        at_colon(at, rest)
    }
}

/// Where the first `=` or colon stands.
fn mark(shape: &[u8]) -> Option<usize>
    ensures mark { result ≡ position is_mark shape.now }
    ensures bound { IfSome result (λ at. at < 2 ^ 63) }
{
    shape.iter().position(|b| *b == b'=' || *b == b':')
}

/// The operator in front of any other colon, in the shape of a text.
pub(crate) fn sign_of(shape: &[u8]) -> Option<Sign>
    ensures { result ≡ assignments.sign_of shape.now }
{
    at_mark(shape, mark(shape)?)
}

/// The assignment with this operator.
fn assignment_at(
    alloc: Global,
    modifiers: Modifiers,
    text: &[u8],
    sign: Sign,
) -> Result<Assignment, NoMemory>
    ensures { IfOk result (λ a. a ≡ assignment_at modifiers text.now sign) }
{
    Ok(Assignment {
        modifiers,
        name: Text::from_slice(alloc, trim(before(sign.start, text)))?,
        operator: sign.operator,
        value: Text::from_slice(alloc, trim_start(from(sign.end, text)))?,
    })
}

/// The assignment that the text is: an operator stands outside references in front of any other
/// colon.
#[tactic(auto, unfolding(crate::specs::Assignments::assignment_of))]
pub(crate) fn read_assignment(
    alloc: Global,
    modifiers: Modifiers,
    text: &[u8],
) -> Result<Option<Assignment>, NoMemory>
    ensures { IfOk result (λ a. a ≡ assignments.assignment_of modifiers text.now) }
{
    let shape = shape(alloc, text)?;
    match sign_of(shape.bytes()) {
        None => Ok(None),
        Some(sign) => Ok(Some(assignment_at(alloc, modifiers, text, sign)?)),
    }
}
