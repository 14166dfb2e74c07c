//! Arguments that don't bear on their values.
ghost use Rattle.std.specs.Prelude.{◌≡◌, ◌+◌, ◌-◌, ◌<◌, drop, length, IfOk};
ghost use Rattle.em_syntax.specs.Nesting.{nesting_of};
ghost use Rattle.em_syntax.specs.Pieces.{what_in};
ghost use Rattle.em_syntax.specs.Scripts.{script_in, scripts_in};
ghost use Rattle.em_word.specs.Passing as passing;
ghost use Rattle.em_word.specs.Passing.{behind};

use em_base::NoMemory;
use em_syntax::{WordPiece, WordWhat};

/// The sum. More than a `usize` counts is want of memory.
pub(crate) fn sum(a: usize, b: usize) -> Result<usize, NoMemory>
    ensures { IfOk result (λ n. n ≡ a + b) }
{
    match a.checked_add(b) {
        Some(sum) => Ok(sum),
        None => Err(NoMemory),
    }
}

/// How many arguments are open behind a piece, where so many are before it.
fn still_open(piece: &WordPiece, before: usize) -> Result<usize, NoMemory>
    requires { 0 < before }
    ensures { IfOk result (λ n. n ≡ passing.still_open (nesting_of piece.now) (before - 1)) }
{
    match &piece.what {
        WordWhat::Bytes(_) => Ok(before),
        WordWhat::Value(_) => Ok(before),
        WordWhat::Argument(_) => {
            let more = sum(before, 1)?;
            Ok(more)
        }
        WordWhat::End => Ok(before - 1),
        WordWhat::Output(_) => Ok(before),
    }
}

/// How many substitutions stand before what is behind a piece, where so many stand before it.
fn scripts_with(piece: &WordPiece, before: usize) -> Result<usize, NoMemory>
    ensures { IfOk result (λ n. n ≡ before + length (script_in (what_in piece.now))) }
{
    match &piece.what {
        WordWhat::Bytes(_) => Ok(before),
        WordWhat::Value(_) => Ok(before),
        WordWhat::Argument(_) => Ok(before),
        WordWhat::End => Ok(before),
        WordWhat::Output(_) => {
            let more = sum(before, 1)?;
            Ok(more)
        }
    }
}

/// What stands behind the end of an argument that begins here, and how many substitutions stand
/// before that. Steps for each piece of the argument.
pub(crate) fn behind_argument(pieces: &[WordPiece]) -> Result<(&[WordPiece], usize), NoMemory>
    ensures rest { IfOk result (λ x. x.0.now ≡ behind 1 pieces.now) }
    ensures count { IfOk result (λ x. drop x.1 (scripts_in pieces.now) ≡ scripts_in x.0.now) }
{
    let mut open = 1;
    let mut scripts = 0;
    let mut rest = pieces;
    while let Some((piece, more)) = rest.split_first() {
        if open == 0 {
            return Ok((rest, scripts));
        }
        open = still_open(piece, open)?;
        scripts = scripts_with(piece, scripts)?;
        rest = more;
    }
    Ok((rest, scripts))
}
