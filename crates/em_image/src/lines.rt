//! The line of a node.
ghost use Rattle.std.specs.Prelude.{◌≡◌, IfOk};
ghost use Rattle.em_path.specs.Paths.{IsPath};
ghost use Rattle.em_image.specs.Image.{limits};
ghost use Rattle.em_image.specs.Parts.{Gives, IsAt, seen, skip, longest_link, stamp_at, sort_at, path_at};
ghost use Rattle.em_image.specs.Reading.{header_at};
ghost use Rattle.em_image.specs.Headers.{header_of};
ghost use Rattle.em_image.specs.declared.cursor.Mark.TheVariants as mark;

use crate::cursor::{Cursor, Mark};
use crate::header::{Header, Sort};
use crate::no::{ImageNo, Which};
use crate::numbers::number;
use crate::parts::{fixed, line, skipped};
use bytes::Bytes;
use em_path::Path;

/// The greatest stamp that an image may have.
pub const MAX_STAMP: u64 = 1 << 62;

/// The most bytes that a file may have.
pub const MAX_FILE: u64 = 16_777_216;

/// The most bytes that the text of a symbolic link may have.
const MAX_LINK: u64 = 1024;

/// Takes a stamp between blanks.
#[tactic(auto, unfolding(crate::specs::Parts::stamp_at))]
fn stamp(cursor: Cursor) -> Result<(u64, Cursor), ImageNo>
    ensures { Gives (λ x. (x.0, seen x.1)) result (stamp_at limits (seen cursor.entry)) }
{
    let cursor = fixed(cursor, b' ')?;
    let (stamp, cursor) = number(cursor, Which::Stamp, MAX_STAMP)?;
    let cursor = fixed(cursor, b' ')?;
    Ok((stamp, cursor))
}

/// Takes the number of bytes of a file, and a blank.
#[tactic(auto, unfolding(crate::specs::Parts::sort_at))]
fn file_size(cursor: Cursor) -> Result<(Sort, Cursor), ImageNo>
    ensures { Gives (λ x. (x.0, seen x.1)) result (sort_at limits mark.File (seen cursor.entry)) }
{
    let (size, cursor) = number(cursor, Which::File, MAX_FILE)?;
    let cursor = fixed(cursor, b' ')?;
    Ok((Sort::File { size }, cursor))
}

/// Takes the number of bytes of a link's text, and a blank.
#[tactic(auto, unfolding(crate::specs::Parts::sort_at))]
fn link_size(cursor: Cursor) -> Result<(Sort, Cursor), ImageNo>
    ensures { Gives (λ x. (x.0, seen x.1)) result (sort_at limits mark.Link (seen cursor.entry)) }
{
    let (size, after) = number(cursor, Which::Link, MAX_LINK)?;
    if size == 0 {
        return Err(ImageNo::Limit {
            which: Which::Link,
            at: cursor.at,
        });
    }
    let after = fixed(after, b' ')?;
    Ok((Sort::Link { size }, after))
}

/// Takes of a file or a link the number of its bytes and a blank, and of a directory nothing.
#[tactic(auto, unfolding(crate::specs::Parts::sort_at))]
fn sort(cursor: Cursor, mark: Mark) -> Result<(Sort, Cursor), ImageNo>
    ensures { Gives (λ x. (x.0, seen x.1)) result (sort_at limits mark (seen cursor.entry)) }
{
    match mark {
        Mark::Dir | Mark::End => Ok((Sort::Dir, cursor)),
        Mark::File => file_size(cursor),
        Mark::Link => link_size(cursor),
    }
}

/// Takes the text of a path, and the newline behind it. The path shares the input's bytes.
#[tactic(auto, unfolding(crate::specs::Parts::path_at))]
fn path<'a>(input: &Bytes, cursor: Cursor<'a>) -> Result<(Path, Cursor<'a>), ImageNo>
    requires { IsAt input.now (seen cursor) }
    ensures { Gives (λ x. (x.0, seen x.1)) result (path_at (seen cursor.entry)) }
{
    let (text, after) = line(cursor)?;
    let start = cursor.at as usize;
    match Path::from_bytes(input.slice(start..start + text.len())?) {
        None => Err(ImageNo::Path { at: cursor.at }),
        Some(path) => Ok((path, skipped(after, 1))),
    }
}

/// Takes the line of a node behind its letter.
#[tactic(auto, unfolding(crate::specs::Reading::header_at))]
pub fn header<'a>(
    input: &Bytes,
    cursor: Cursor<'a>,
    mark: Mark,
) -> Result<(Header, Cursor<'a>), ImageNo>
    requires { IsAt input.now (seen cursor) }
    ensures { Gives (λ x. (header_of x.0, seen x.1)) result
        (header_at limits mark (seen cursor.entry)) }
{
    let (stamp, cursor) = stamp(cursor)?;
    let (sort, cursor) = sort(cursor, mark)?;
    let place = cursor.at;
    let (path, cursor) = path(input, cursor)?;
    Ok((
        Header {
            stamp,
            sort,
            path,
            place,
        },
        cursor,
    ))
}
