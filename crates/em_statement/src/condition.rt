//! Conditions.
ghost use Rattle.std.specs.Prelude.{◌≡◌, IfOk, option_map};
ghost use Rattle.em_statement.specs.Conditions as conditions;
ghost use Rattle.em_statement.specs.Conditions.{outer, unquoted, sides_of, condition_by};

use crate::keyword::Keyword;
use crate::shape::shape;
use crate::split::{before, behind, is_empty, place_of};
use em_base::{NoMemory, Text, trim_end, trim_start};
use std::alloc::Global;

/// Two texts that are compared when they are expanded.
#[derive(Debug, Drop, PartialEq, Eq)]
pub struct Sides {
    pub left: Text,
    pub right: Text,
}

/// The condition of a branch.
#[derive(Debug, Drop, PartialEq, Eq)]
pub enum Condition {
    /// `ifeq`: the two are equal.
    Same(Sides),
    /// `ifneq`: the two differ.
    Different(Sides),
    /// `ifdef`: the variable of this name, when it is expanded, has a text.
    Defined(Text),
    /// `ifndef`: it has none.
    Undefined(Text),
    /// `ifeq` or `ifneq` without two texts, or with more.
    Malformed,
}

/// Where the byte first stands outside brackets; nowhere behind a bracket that closes more than was
/// opened.
fn outer(stop: u8, shape: &[u8]) -> Option<usize>
    ensures { result ≡ outer stop 0 shape.now }
{
    let mut depth: usize = 0;
    for (at, byte) in shape.iter().enumerate() {
        if depth == 0 && *byte == stop {
            return Some(at);
        }
        if *byte == b'(' {
            depth += 1;
        } else if *byte == b')' {
            depth = depth.checked_sub(1)?;
        }
    }
    None
}

/// `(A,B)`, with nothing but blanks behind it.
fn bracketed(alloc: Global, text: &[u8]) -> Result<Option<Sides>, NoMemory>
    ensures { IfOk result (λ s. s ≡ conditions.bracketed text.now) }
{
    let shaped = shape(alloc, text)?;
    let Some(comma) = outer(b',', shaped.bytes()) else {
        return Ok(None);
    };
    right_side(alloc, trim_end(before(comma, text)), behind(comma, text))
}

/// The second text, up to the bracket that closes.
fn right_side(alloc: Global, left: &[u8], text: &[u8]) -> Result<Option<Sides>, NoMemory>
    ensures { IfOk result (λ s. s ≡ conditions.right_side left.now text.now) }
{
    let shaped = shape(alloc, text)?;
    let Some(at) = outer(b')', shaped.bytes()) else {
        return Ok(None);
    };
    if !is_empty(behind(at, text)) {
        return Ok(None);
    }
    Ok(Some(both_sides(alloc, left, trim_start(before(at, text)))?))
}

/// Two texts.
fn both_sides(alloc: Global, left: &[u8], right: &[u8]) -> Result<Sides, NoMemory>
    ensures { IfOk result (λ s. (s.left ≡ left.now) × (s.right ≡ right.now)) }
{
    Ok(Sides {
        left: Text::from_slice(alloc, left)?,
        right: Text::from_slice(alloc, right)?,
    })
}

/// A text in quotes, and what stands behind it without blanks before it.
fn unquoted(text: &[u8]) -> Option<(&[u8], &[u8])>
    ensures { option_map (λ p. (p.0.now, p.1.now)) result ≡ unquoted text.now }
{
    let (quote, text) = text.split_first()?;
    if *quote != b'"' && *quote != b'\'' {
        return None;
    }
    let at = place_of(*quote, text)?;
    Some((before(at, text), trim_start(behind(at, text))))
}

/// Two texts in quotes, with nothing but blanks behind them.
fn quoted(alloc: Global, text: &[u8]) -> Result<Option<Sides>, NoMemory>
    ensures { IfOk result (λ s. s ≡ conditions.quoted (conditions.unquoted text.now)) }
{
    let Some((left, rest)) = unquoted(text) else {
        return Ok(None);
    };
    let Some((right, rest)) = unquoted(rest) else {
        return Ok(None);
    };
    if !is_empty(rest) {
        return Ok(None);
    }
    Ok(Some(both_sides(alloc, left, right)?))
}

/// The two texts that are compared.
fn sides_of(alloc: Global, text: &[u8]) -> Result<Option<Sides>, NoMemory>
    ensures { IfOk result (λ s. s ≡ sides_of text.now) }
{
    match text.split_first() {
        Some((b'(', rest)) => bracketed(alloc, rest),
        _ => quoted(alloc, text),
    }
}

/// The comparison of two texts, if they are there.
fn compared(same: bool, sides: Option<Sides>) -> Condition
    ensures { result ≡ conditions.compared same sides }
{
    match sides {
        None => Condition::Malformed,
        Some(sides) => {
            if same {
                Condition::Same(sides)
            } else {
                Condition::Different(sides)
            }
        }
    }
}

/// The condition that the text behind this keyword is; `None` exactly where the keyword begins no
/// condition. Steps for each byte.
#[tactic(auto, unfolding(crate::specs::Conditions::condition_by))]
pub(crate) fn read_condition(
    alloc: Global,
    keyword: Option<Keyword>,
    text: &[u8],
) -> Result<Option<Condition>, NoMemory>
    ensures { IfOk result (λ c. c ≡ condition_by keyword text.now) }
{
    Ok(match keyword {
        Some(Keyword::Ifeq) => Some(compared(true, sides_of(alloc, text)?)),
        Some(Keyword::Ifneq) => Some(compared(false, sides_of(alloc, text)?)),
        Some(Keyword::Ifdef) => Some(Condition::Defined(Text::from_slice(alloc, text)?)),
        Some(Keyword::Ifndef) => Some(Condition::Undefined(Text::from_slice(alloc, text)?)),
        _ => None,
    })
}
