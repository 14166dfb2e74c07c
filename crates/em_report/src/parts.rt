//! The parts of a report, each read from the left.
ghost use Rattle.std.specs.Prelude.{◌≡◌, ◌≢◌, ◌+◌, ◌-◌, ◌*◌, ◌^◌, ◌<◌, ◌≤◌, length, Some, None, IfOk, IfErr, if◌then◌else◌};
ghost use Rattle.em_history.specs.Names as names;
ghost use Rattle.em_report.specs.Parts.{Gives, seen, skip, fixed_at, text_at, digit_at, fits, more_at, number_at, runs_at, cause_at, name_len, name_at, gap_at};

use crate::cursor::Cursor;
use crate::no::ReportNo;
use crate::report::CauseWord;
use crate::words::{begun_by, word};

/// The cursor n bytes on.
fn skipped(cursor: Cursor, n: usize) -> Cursor
    requires { n ≤ length cursor.rest.now }
    ensures { seen result ≡ skip n (seen cursor.entry) }
{
    Cursor {
        at: cursor.at + n,
        rest: &cursor.rest[n..],
    }
}

/// Takes one byte that has to stand there.
pub fn fixed(cursor: Cursor, byte: u8) -> Result<Cursor, ReportNo>
    ensures gives { Gives (λ x. (tt, seen x)) result (fixed_at byte (seen cursor.entry)) }
    ensures fault { IfErr result (λ e. e ≢ ReportNo.NoMemory) }
{
    match cursor.rest {
        [first, rest @ ..] if *first == byte => Ok(Cursor {
            at: cursor.at + 1,
            rest,
        }),
        _ => Err(ReportNo::Form(cursor.at)),
    }
}

/// Takes these bytes, each of which has to stand there.
pub fn text<'a>(cursor: Cursor<'a>, bytes: &[u8]) -> Result<Cursor<'a>, ReportNo>
    ensures gives { Gives (λ x. (tt, seen x)) result (text_at bytes.now (seen cursor.entry)) }
    ensures fault { IfErr result (λ e. e ≢ ReportNo.NoMemory) }
{
    let mut after = cursor;
    for byte in bytes {
        after = fixed(after, *byte)?;
    }
    Ok(after)
}

/// Takes one digit.
fn digit(cursor: Cursor) -> Result<(u64, Cursor), ReportNo>
    ensures gives { Gives (λ x. (x.0, seen x.1)) result (digit_at (seen cursor.entry)) }
    ensures small { IfOk result (λ x. x.0 ≤ 9) }
    ensures fault { IfErr result (λ e. e ≢ ReportNo.NoMemory) }
{
    match cursor.rest {
        [first, rest @ ..] if first.is_ascii_digit() => Ok((
            u64::from(*first - b'0'),
            Cursor {
                at: cursor.at + 1,
                rest,
            },
        )),
        _ => Err(ReportNo::Form(cursor.at)),
    }
}

/// The number with one digit more, where the byte is a digit that may stand there.
fn appended(number: u64, byte: u8, limit: u64) -> Option<u64>
    ensures { result ≡ (if fits limit number byte then Some (10 * number + (byte - 48)) else None) }
{
    if !byte.is_ascii_digit() || number == 0 {
        return None;
    }
    if number > limit / 10 {
        return None;
    }
    let tens = number * 10;
    let digit = u64::from(byte - b'0');
    if digit > limit - tens {
        return None;
    }
    Some(tens + digit)
}

/// Takes the digits that may stand behind those of the number.
fn more(cursor: Cursor, number: u64, limit: u64) -> (u64, Cursor)
    requires { number ≤ limit }
    ensures more { (result.0, seen result.1) ≡ more_at limit number (seen cursor.entry) }
    ensures small { result.0 ≤ limit }
{
    let mut number = number;
    let mut here = cursor;
    for byte in cursor.rest {
        let Some(next) = appended(number, *byte, limit) else {
            return (number, here);
        };
        number = next;
        here = skipped(here, 1);
    }
    (number, here)
}

/// Takes a number of at most the limit, in front of a byte that may not stand behind its digits.
#[tactic(auto, unfolding(crate::specs::Parts::number_at))]
pub fn number(cursor: Cursor, limit: u64) -> Result<(u64, Cursor), ReportNo>
    requires { 9 ≤ limit }
    ensures gives { Gives (λ x. (x.0, seen x.1)) result (number_at limit (seen cursor.entry)) }
    ensures small { IfOk result (λ x. x.0 ≤ limit) }
    ensures fault { IfErr result (λ e. e ≢ ReportNo.NoMemory) }
{
    let (first, after) = digit(cursor)?;
    Ok(more(after, first, limit))
}

/// Takes `1` or `2`.
pub fn runs(cursor: Cursor) -> Result<(u8, Cursor), ReportNo>
    ensures gives { Gives (λ x. (x.0, seen x.1)) result (runs_at (seen cursor.entry)) }
    ensures fault { IfErr result (λ e. e ≢ ReportNo.NoMemory) }
{
    let (runs, rest) = match cursor.rest {
        [b'1', rest @ ..] => (1, rest),
        [b'2', rest @ ..] => (2, rest),
        _ => return Err(ReportNo::Form(cursor.at)),
    };
    Ok((
        runs,
        Cursor {
            at: cursor.at + 1,
            rest,
        },
    ))
}

/// Takes the word of a cause.
pub fn cause(cursor: Cursor) -> Result<(CauseWord, Cursor), ReportNo>
    ensures gives { Gives (λ x. (x.0, seen x.1)) result (cause_at (seen cursor.entry)) }
    ensures fault { IfErr result (λ e. e ≢ ReportNo.NoMemory) }
{
    let [first, ..] = cursor.rest else {
        return Err(ReportNo::Form(cursor.at));
    };
    let Some(cause) = begun_by(*first) else {
        return Err(ReportNo::Form(cursor.at));
    };
    Ok((cause, text(cursor, word(cause))?))
}

/// Whether the byte parts names.
fn parts_names(byte: u8) -> bool
    ensures { result ≡ names.parts_names byte }
{
    byte == b' ' || byte == b'\t' || byte == b'\n' || byte == 0
}

/// How many bytes stand in front of one that parts names.
fn name_length(bytes: &[u8]) -> usize
    ensures length { result ≡ name_len bytes.now }
    ensures within { result ≤ length bytes.now }
{
    bytes.iter().take_while(|b| !parts_names(**b)).count()
}

/// Takes a name.
pub fn name(cursor: Cursor) -> Result<(&[u8], Cursor), ReportNo>
    ensures gives { Gives (λ x. (x.0.now, seen x.1)) result (name_at (seen cursor.entry)) }
    ensures fault { IfErr result (λ e. e ≢ ReportNo.NoMemory) }
{
    let n = name_length(cursor.rest);
    if n == 0 {
        return Err(ReportNo::Form(cursor.at));
    }
    Ok((&cursor.rest[..n], skipped(cursor, n)))
}

/// Takes a blank, or the newline that ends a line: whether it is that.
pub fn gap(cursor: Cursor) -> Result<(bool, Cursor), ReportNo>
    ensures gives { Gives (λ x. (x.0, seen x.1)) result (gap_at (seen cursor.entry)) }
    ensures fault { IfErr result (λ e. e ≢ ReportNo.NoMemory) }
{
    let (is_end, rest) = match cursor.rest {
        [b' ', rest @ ..] => (false, rest),
        [b'\n', rest @ ..] => (true, rest),
        _ => return Err(ReportNo::Form(cursor.at)),
    };
    Ok((
        is_end,
        Cursor {
            at: cursor.at + 1,
            rest,
        },
    ))
}
