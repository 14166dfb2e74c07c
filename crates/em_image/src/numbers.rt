//! Decimal numbers.
ghost use Rattle.std.specs.Prelude.{◌≡◌, ◌≤◌, ◌^◌, Some, None, true, nat_lt, if◌then◌else◌};
ghost use Rattle.std.specs.List.{list_all};
ghost use Rattle.std.specs.Char.{is_ascii_digit};
ghost use Rattle.em_image.specs.Parts.{Gives, seen, value, number_at};
ghost use Rattle.em_base.specs.Numbers as numerals;

use crate::cursor::Cursor;
use crate::no::{ImageNo, Which};
use crate::parts::digits;

/// Whether there are digits, with a zero in front only where it is the only one.
fn has_no_leading_zero(digits: &[u8]) -> bool
    ensures { result ≡ numerals.has_no_leading_zero digits.now }
{
    match digits {
        [] => false,
        [first, rest @ ..] => *first != b'0' || rest.is_empty(),
    }
}

/// The number that the digits spell, where it is at most the limit.
fn value_up_to(digits: &[u8], limit: u64) -> Option<u64>
    requires digits { list_all is_ascii_digit digits.now ≡ true }
    requires limit { limit ≤ 2 ^ 62 }
    ensures { result ≡ (if nat_lt limit (value digits.now) then None else Some (value digits.now)) }
{
    let mut number: u64 = 0;
    for byte in digits {
        let digit = u64::from(*byte - b'0');
        if number > limit / 10 || number * 10 + digit > limit {
            return None;
        }
        number = number * 10 + digit;
    }
    Some(number)
}

/// Takes a number of at most the limit. It ends in front of the first byte that is no digit.
#[tactic(auto, unfolding(crate::specs::Parts::number_at))]
pub fn number(cursor: Cursor, which: Which, limit: u64) -> Result<(u64, Cursor), ImageNo>
    requires { limit ≤ 2 ^ 62 }
    ensures { Gives (λ x. (x.0, seen x.1)) result (number_at which limit (seen cursor.entry)) }
{
    let (digits, after) = digits(cursor)?;
    if !has_no_leading_zero(digits) {
        return Err(ImageNo::Number { at: cursor.at });
    }
    match value_up_to(digits, limit) {
        None => Err(ImageNo::Limit {
            which,
            at: cursor.at,
        }),
        Some(number) => Ok((number, after)),
    }
}
