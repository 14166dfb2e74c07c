//! Files, and the lines of a text.
ghost use Rattle.std.specs.Prelude.{◌≡◌, Some, IfOk, map, option_map};
ghost use Rattle.em_reading.specs.Faults.{is_free};
ghost use Rattle.em_reader.specs.Reading as steps;
ghost use Rattle.em_reader.specs.Reading.{content_by, path_of, placed_line};
ghost use Rattle.em_view.specs.Steps.{Does};

use em_base::{NoMemory, Place, Seq, Text};
use em_lines::{Line, Lines, joined};
use em_path::{Path, PathNo};
use em_reading::{ReadNo, Reading, desk_fault};
use em_tree::Body;
use em_view::{Desk, View};
use std::alloc::Global;

/// A makefile.
#[derive(Debug, Drop)]
pub struct Makefile {
    /// Its name as it was found.
    pub name: Text,
    pub bytes: Body,
}

/// The path that the name is, if it is one.
fn path_of(alloc: Global, cwd: &Path, name: &[u8]) -> Result<Option<Path>, NoMemory>
    ensures { IfOk result (λ p. p ≡ path_of cwd.now name.now) }
{
    match Path::read(alloc, cwd, name) {
        Ok(path) => Ok(Some(path)),
        Err(PathNo::NoMemory) => Err(NoMemory),
        Err(_) => Ok(None),
    }
}

/// The bytes of the file at this path; `None` where there is none.
fn bytes_at<V: View>(
    alloc: Global,
    desk: &mut Desk<V>,
    reading: &mut Reading,
    place: &Place,
    path: &Path,
) -> Result<Option<Body>, ReadNo>
    ensures { Does is_free V.tells desk.old desk.new reading.old reading.new result
        (content_by place.now (Some path.now)) }
{
    match desk.content(path) {
        Ok(bytes) => Ok(bytes),
        Err(e) => Err(desk_fault(alloc, place, e)),
    }
}

/// The bytes of the file of this name; `None` where it is no path or no file.
pub(crate) fn content_of<V: View>(
    alloc: Global,
    desk: &mut Desk<V>,
    reading: &mut Reading,
    place: &Place,
    name: &[u8],
) -> Result<Option<Body>, ReadNo>
    ensures { Does is_free V.tells desk.old desk.new reading.old reading.new result
        (steps.content_of place.now name.now) }
{
    match path_of(alloc, &reading.cwd, name)? {
        Some(path) => bytes_at(alloc, desk, reading, place, &path),
        None => Ok(None),
    }
}

/// The line at another place.
fn placed_line(alloc: Global, place: &Place, line: &Line) -> Result<Line, NoMemory>
    ensures { IfOk result (λ l. l ≡ placed_line place.now line.now) }
{
    Ok(Line {
        place: place.copy(alloc)?,
        tab: line.tab,
        text: line.text.copy(alloc)?,
    })
}

/// The lines at another place.
fn placed_lines(alloc: Global, place: &Place, lines: &[Line]) -> Result<Seq<Line>, NoMemory>
    ensures { IfOk result (λ ls. ls ≡ map (placed_line place.now) lines.now) }
{
    let mut placed = Seq::new(alloc);
    for line in lines {
        placed.push(placed_line(alloc, place, line)?)?;
    }
    Ok(placed)
}

/// The place of a line that is too long, moved.
fn placed_end(
    alloc: Global,
    place: &Place,
    too_long: Option<Place>,
) -> Result<Option<Place>, NoMemory>
    ensures { IfOk result (λ p. p ≡ option_map (λ q. place.now) too_long) }
{
    match too_long {
        None => Ok(None),
        Some(_) => Ok(Some(place.copy(alloc)?)),
    }
}

/// The lines of a text that `eval` was given, at its statement.
pub(crate) fn eval_lines(alloc: Global, place: &Place, text: &[u8]) -> Result<Lines, NoMemory>
    ensures { IfOk result (λ ls. ls ≡ steps.eval_lines place.now text.now) }
{
    let Lines { lines, too_long } = joined(alloc, &place.file, text)?;
    Ok(Lines {
        lines: placed_lines(alloc, place, lines.items())?,
        too_long: placed_end(alloc, place, too_long)?,
    })
}
