//! A name on the way.
ghost use Rattle.std.specs.Prelude.{◌≡◌, ◌==◌, ◌++◌, ◌∷◌, [], if◌then◌else◌, length, slice_index, IfOk, IfSome};
ghost use Rattle.em_path.specs.Paths.{root_text};
ghost use Rattle.em_pathname.specs.Walking as walking;
ghost use Rattle.em_pathname.specs.Walking.{start, name_below, begins_with};

use em_base::{NoMemory, Seq, Text};
use em_glob::Glyph;
use em_path::{Path, PathNo};
use std::alloc::Global;

/// A name so far, as the pattern writes it, with the path that it is.
#[derive(Debug, Drop)]
pub(crate) struct PathMatch {
    pub(crate) name: Text,
    pub(crate) path: Path,
}

/// Whether the first glyph is this byte, quoted or not.
pub(crate) fn begins_with(byte: u8, glyphs: &[Glyph]) -> bool
    ensures { result ≡ begins_with byte glyphs.now }
{
    glyphs.first().is_some_and(|g| g.byte == byte)
}

/// The root, or the working directory, whose name is empty.
fn first(alloc: Global, cwd: &Path, slash: bool) -> Result<PathMatch, NoMemory>
    ensures { IfOk result
        (λ f. f ≡ (if slash then record { name = 47 ∷ []; path = root_text }
        else record { name = []; path = cwd.now })) }
{
    if slash {
        return Ok(PathMatch {
            name: Text::from_slice(alloc, b"/")?,
            path: Path::root(),
        });
    }
    Ok(PathMatch {
        name: Text::new(alloc),
        path: cwd.copy()?,
    })
}

/// Where the walk begins: at the root for a pattern that begins with a slash, else in the working
/// directory; nowhere for the empty pattern.
pub(crate) fn start(
    alloc: Global,
    cwd: &Path,
    pattern: &[Glyph],
) -> Result<Seq<PathMatch>, NoMemory>
    ensures { IfOk result (λ fs. fs ≡ start cwd.now pattern.now) }
{
    let mut all = Seq::new(alloc);
    if let Some(glyph) = pattern.first() {
        all.push(first(alloc, cwd, glyph.byte == b'/')?)?;
    }
    Ok(all)
}

/// The name of what stands in a directory of this name.
pub(crate) fn name_below(alloc: Global, dir: &[u8], component: &[u8]) -> Result<Text, NoMemory>
    ensures { IfOk result (λ t. t ≡ name_below dir.now component.now) }
{
    let mut name = Text::from_slice(alloc, dir)?;
    if !dir.is_empty() && dir != b"/".as_slice() {
        name.add(b"/")?;
    }
    name.add(component)?;
    Ok(name)
}

/// A name with its path; `None` exactly where it is no path.
pub(crate) fn read_name(
    alloc: Global,
    cwd: &Path,
    name: Text,
) -> Result<Option<PathMatch>, NoMemory>
    ensures { IfOk result (λ f. f ≡ walking.found cwd.now name) }
{
    match Path::read(alloc, cwd, name.bytes()) {
        Ok(path) => Ok(Some(PathMatch { name, path })),
        Err(PathNo::NoMemory) => Err(NoMemory),
        Err(_) => Ok(None),
    }
}
