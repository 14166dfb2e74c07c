//! What single bytes mean to the shell.
ghost use Rattle.std.specs.Prelude.{◌≡◌};
ghost use Rattle.em_lexeme.specs.Bytes as bytes;

use em_base::is_blank;

/// Whether a name may begin with the byte.
pub fn begins_name(byte: u8) -> bool
    ensures { result ≡ bytes.begins_name byte }
{
    byte.is_ascii_alphabetic() || byte == b'_'
}

/// Whether the byte may stand in a name.
pub fn is_in_name(byte: u8) -> bool
    ensures { result ≡ bytes.is_in_name byte }
{
    begins_name(byte) || byte.is_ascii_digit()
}

/// Whether double quotes don't keep the byte.
pub fn acts_quoted(byte: u8) -> bool
    ensures { result ≡ bytes.acts_quoted byte }
{
    byte == b'"' || byte == b'$' || byte == b'`'
}

/// Whether the byte begins a piece that isn't of unquoted bytes.
pub fn acts(byte: u8) -> bool
    ensures { result ≡ bytes.acts byte }
{
    acts_quoted(byte) || byte == b'\''
}

/// Whether an operator of `;`, `&`, `|`, `<` and `>` begins with the byte.
pub fn begins_operator(byte: u8) -> bool
    ensures { result ≡ bytes.begins_operator byte }
{
    byte == b';' || byte == b'&' || byte == b'|' || byte == b'<' || byte == b'>'
}

/// Whether a word ends before the byte.
pub fn ends_word(byte: u8) -> bool
    ensures { result ≡ bytes.ends_word byte }
{
    is_blank(byte) || byte == b'\n' || byte == b'(' || byte == b')' || begins_operator(byte)
}

/// Whether the byte is a digit or names a parameter that isn't supported.
pub fn is_special(byte: u8) -> bool
    ensures { result ≡ bytes.is_special byte }
{
    byte.is_ascii_digit()
        || byte == b'@'
        || byte == b'*'
        || byte == b'#'
        || byte == b'$'
        || byte == b'!'
        || byte == b'-'
}

/// Whether a word may follow the byte in `${name-word}`.
pub fn takes_word(byte: u8) -> bool
    ensures { result ≡ bytes.takes_word byte }
{
    byte == b'-' || byte == b'=' || byte == b'+' || byte == b'?'
}

/// Whether a backslash before the byte is dropped in backquotes, which stand in double quotes or
/// not.
pub fn is_dropped(quoting: bool, byte: u8) -> bool
    ensures { result ≡ bytes.is_dropped quoting byte }
{
    byte == b'\\' || byte == b'$' || byte == b'`' || (quoting && byte == b'"')
}
