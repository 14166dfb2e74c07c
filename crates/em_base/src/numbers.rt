//! Numbers in canonical decimal.
ghost use Rattle.std.specs.Prelude.{◌≡◌};
ghost use Rattle.std.specs.List.{list_all};
ghost use Rattle.std.specs.Char.{is_ascii_digit};
ghost use Rattle.em_base.specs.Numbers as numbers;
ghost use Rattle.em_base.specs.Numbers.{number_of};

/// Whether there is a first byte, which is a zero only where it is the only one.
fn has_no_leading_zero(text: &[u8]) -> bool
    ensures { result ≡ numbers.has_no_leading_zero text.now }
{
    match text {
        [] => false,
        [first, rest @ ..] => *first != b'0' || rest.is_empty(),
    }
}

/// Whether each byte is a digit.
fn are_digits(text: &[u8]) -> bool
    ensures { result ≡ list_all is_ascii_digit text.now }
{
    text.iter().all(|b| b.is_ascii_digit())
}

/// The number that the text writes in canonical decimal: digits without a sign, the first a zero
/// only in `0` itself. None where the text is nothing of that kind, or the number is above the
/// limit.
pub fn number(limit: u64, text: &[u8]) -> Option<u64>
    ensures { result ≡ number_of limit text.now }
{
    if !has_no_leading_zero(text) || !are_digits(text) {
        return None;
    }
    let value: u64 = str::from_utf8(text).ok()?.parse().ok()?;
    if value <= limit { Some(value) } else { None }
}
