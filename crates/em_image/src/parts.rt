//! Single bytes, fixed texts, and the bytes up to one that ends them.
ghost use Rattle.std.specs.Prelude.{◌≡◌, ◌+◌, ◌≤◌, not, ◌==◌, length, true, IfOk};
ghost use Rattle.std.specs.List.{list_all, position};
ghost use Rattle.std.specs.Char.{is_ascii_digit};
ghost use Rattle.em_image.specs.Parts.{Gives, Here, skip, end_of, seen, fixed_at, text_at, version_at, head_at, mark_at, until_at};

use crate::cursor::{Cursor, Mark};
use crate::no::ImageNo;

/// The cursor n bytes on.
pub fn skipped(cursor: Cursor, n: usize) -> Cursor
    requires { n ≤ length cursor.rest.now }
    ensures { seen result ≡ skip n (seen cursor.entry) }
{
    Cursor {
        at: cursor.at + n as u32,
        rest: &cursor.rest[n..],
    }
}

/// The place at which the input ends.
pub fn end(cursor: Cursor) -> u32
    ensures { result ≡ end_of (seen cursor.entry) }
{
    cursor.at + cursor.rest.len() as u32
}

/// Takes one byte that has to stand there.
pub fn fixed(cursor: Cursor, byte: u8) -> Result<Cursor, ImageNo>
    ensures { Gives seen result (fixed_at byte (seen cursor.entry)) }
{
    match cursor.rest {
        [] => Err(ImageNo::Short { at: cursor.at }),
        [first, rest @ ..] if *first == byte => Ok(Cursor {
            at: cursor.at + 1,
            rest,
        }),
        [_, ..] => Err(ImageNo::Form { at: cursor.at }),
    }
}

/// Takes the letter of a node, or the `.` of the end. `l` is one only where there are links.
pub fn mark(cursor: Cursor, links: bool) -> Result<(Mark, Cursor), ImageNo>
    ensures { Gives (λ x. (x.0, seen x.1)) result (mark_at links (seen cursor.entry)) }
{
    let (mark, rest) = match cursor.rest {
        [] => return Err(ImageNo::Short { at: cursor.at }),
        [b'd', rest @ ..] => (Mark::Dir, rest),
        [b'f', rest @ ..] => (Mark::File, rest),
        [b'l', rest @ ..] if links => (Mark::Link, rest),
        [b'.', rest @ ..] => (Mark::End, rest),
        [_, ..] => return Err(ImageNo::Form { at: cursor.at }),
    };
    Ok((
        mark,
        Cursor {
            at: cursor.at + 1,
            rest,
        },
    ))
}

/// Takes these bytes, each of which has to stand there.
fn text<'a>(cursor: Cursor<'a>, bytes: &[u8]) -> Result<Cursor<'a>, ImageNo>
    ensures { Gives seen result (text_at bytes.now (seen cursor.entry)) }
{
    let mut after = cursor;
    for byte in bytes {
        after = fixed(after, *byte)?;
    }
    Ok(after)
}

/// Takes the `1` or `2` of the first line, and tells whether it is `2`.
fn version(cursor: Cursor) -> Result<(bool, Cursor), ImageNo>
    ensures { Gives (λ x. (x.0, seen x.1)) result (version_at (seen cursor.entry)) }
{
    let (links, rest) = match cursor.rest {
        [] => return Err(ImageNo::Short { at: cursor.at }),
        [b'1', rest @ ..] => (false, rest),
        [b'2', rest @ ..] => (true, rest),
        [_, ..] => return Err(ImageNo::Form { at: cursor.at }),
    };
    Ok((
        links,
        Cursor {
            at: cursor.at + 1,
            rest,
        },
    ))
}

/// Takes the first line, and tells whether it is that of an image with links.
#[tactic(auto, unfolding(crate::specs::Parts::head_at))]
pub fn head(cursor: Cursor) -> Result<(bool, Cursor), ImageNo>
    ensures { Gives (λ x. (x.0, seen x.1)) result (head_at (seen cursor.entry)) }
{
    let cursor = text(cursor, b"EMTREE ")?;
    let (links, cursor) = version(cursor)?;
    let cursor = fixed(cursor, b'\n')?;
    Ok((links, cursor))
}

/// The place of the first newline.
fn first_newline(bytes: &[u8]) -> Option<usize>
    ensures { result ≡ position (λ b. b == 10) bytes.now }
{
    bytes.iter().position(|b| *b == b'\n')
}

/// The place of the first byte that is no digit.
fn first_other(bytes: &[u8]) -> Option<usize>
    ensures { result ≡ position (λ b. not (is_ascii_digit b)) bytes.now }
{
    bytes.iter().position(|b| !b.is_ascii_digit())
}

/// Takes the bytes in front of the first newline, which stays.
pub fn line(cursor: Cursor) -> Result<(&[u8], Cursor), ImageNo>
    ensures { Gives (λ x. (x.0.now, seen x.1)) result
        (until_at (λ b. b == 10) (seen cursor.entry)) }
{
    match first_newline(cursor.rest) {
        None => Err(ImageNo::Short { at: end(cursor) }),
        Some(n) => Ok((&cursor.rest[..n], skipped(cursor, n))),
    }
}

/// Takes the digits in front of the first byte that is no digit, which stays.
pub fn digits(cursor: Cursor) -> Result<(&[u8], Cursor), ImageNo>
    ensures gives { Gives
        (λ x. (x.0.now, seen x.1)) result
        (until_at (λ b. not (is_ascii_digit b)) (seen cursor.entry)) }
    ensures digits { IfOk result (λ x. list_all is_ascii_digit x.0.now ≡ true) }
{
    match first_other(cursor.rest) {
        None => Err(ImageNo::Short { at: end(cursor) }),
        Some(n) => Ok((&cursor.rest[..n], skipped(cursor, n))),
    }
}
