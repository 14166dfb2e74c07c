//! Where a path leads, through symbolic links.
ghost use Rattle.std.specs.Prelude.{◌≡◌, IfOk, drop, true, ℕ, option_copied};
ghost use Rattle.em_path.specs.Paths.{parent_text};
ghost use Rattle.em_tree.specs.Trees.{kind_of, stamp_of};
ghost use Rattle.em_tree.specs.Resolving.{links_in, first_link, front_of, moved, read_or_none, onward, led_from, path_of, way_in, node_behind};

use crate::link::LinkText;
use crate::node::{Kind, Node};
use crate::tree::Tree;
use em_base::NoMemory;
use em_path::{Path, PathNo};
use std::alloc::Global;

/// How many links are followed from one path.
pub const MOST: u32 = 40;

/// One more than a path has components.
pub const LEVELS: u32 = 65;

/// A link on the way of a path: the directory in which it stands, its path, and what it says.
#[derive(Debug, Drop)]
pub struct Met {
    pub dir: Path,
    pub link: Path,
    pub text: LinkText,
}

/// Where a path leads.
#[derive(Debug, Drop)]
pub enum Way {
    /// To this path, which isn't a link itself where the last component is followed.
    To(Path),
    /// There is a link more on the way than may be followed.
    TooMany,
    /// What a link on the way says, with what the path has behind the link, is no path.
    Bad,
}

/// Where a path leads, and how many links were followed.
#[derive(Debug, Drop)]
pub struct Led {
    pub way: Way,
    pub followed: u64,
}

/// The parent; none of the root.
pub fn dir_of(alloc: Global, p: &Path) -> Result<Option<Path>, NoMemory>
    ensures { IfOk result (λ r. r ≡ parent_text p.now) }
{
    match p.parent(alloc) {
        Ok(dir) => Ok(dir),
        Err(_) => Err(NoMemory),
    }
}

/// What stands behind so many bytes.
fn behind(text: &[u8], n: usize) -> &[u8]
    ensures { result.now ≡ drop n text.now }
{
    if n < text.len() { &text[n..] } else { b"" }
}

/// The path's text before a child's slash.
fn front_of(p: &Path) -> &[u8]
    ensures { result.now ≡ front_of p.now }
{
    let text = p.text();
    if text.len() == 1 { b"" } else { text }
}

/// The path with `base` in place of the link at its front.
fn moved(alloc: Global, base: Path, link: &Path, p: &Path) -> Result<Option<Path>, NoMemory>
    ensures { IfOk result (λ r. r ≡ moved base link.now p.now) }
{
    if p == link {
        return Ok(Some(base));
    }
    let mut text = Vec::from_slice(alloc, front_of(&base))?;
    text.extend_from_slice(behind(p.text(), link.text().len()))?;
    Ok(Path::from_text(alloc, text.as_slice())?)
}

/// What a name comes to; `None` where it is no path.
fn read(alloc: Global, cwd: &Path, name: &[u8]) -> Result<Option<Path>, NoMemory>
    ensures { IfOk result (λ r. r ≡ read_or_none cwd.now name.now) }
{
    match Path::read(alloc, cwd, name) {
        Ok(p) => Ok(Some(p)),
        Err(PathNo::NoMemory) => Err(NoMemory),
        Err(_) => Ok(None),
    }
}

/// The path that the link on the way of a path leads to; `None` where it is no path. It costs as
/// many steps as the texts have bytes.
pub fn onward(alloc: Global, p: &Path, met: &Met) -> Result<Option<Path>, NoMemory>
    ensures { IfOk result (λ r. r ≡ onward p.now met.now) }
{
    match read(alloc, &met.dir, met.text.bytes())? {
        Some(base) => moved(alloc, base, &met.link, p),
        None => Ok(None),
    }
}

impl Tree {
    /// The first link among the path and the directories above it, from the top.
    fn first_link(&self, alloc: Global, left: u32, p: &Path) -> Result<Option<Met>, NoMemory>
        ensures { IfOk result (λ m. m ≡ first_link (links_in self.now) left p.now) }
    {
        if left == 0 {
            return Ok(None);
        }
        let Some(dir) = dir_of(alloc, p)? else {
            return Ok(None);
        };
        let above = self.first_link(alloc, left - 1, &dir)?;
        if above.is_some() {
            return Ok(above);
        }
        match self.link(p) {
            Some(text) => Ok(Some(Met {
                dir,
                link: p.copy()?,
                text: text.copy()?,
            })),
            None => Ok(None),
        }
    }

    /// The path behind the links, of which so many may still be followed.
    fn resolve_from(&self, alloc: Global, left: u32, p: Path) -> Result<Option<Path>, NoMemory>
        ensures { IfOk result
            (λ r. (n : ℕ) → r ≡ path_of (led_from (links_in self.now) true left n p).way) }
    {
        let Some(met) = self.first_link(alloc, LEVELS, &p)? else {
            return Ok(Some(p));
        };
        if left == 0 {
            return Ok(None);
        }
        match onward(alloc, &p, &met)? {
            Some(q) => self.resolve_from(alloc, left - 1, q),
            None => Ok(None),
        }
    }

    /// The path to which a path leads: each link on its way is followed, the last component too, as
    /// POSIX resolves a pathname; `..` in the text of a link is resolved before any link. `None`
    /// exactly where more than 40 links would be followed, or where a link's text, with what stands
    /// behind the link, is no path.
    /// In a tree without links it costs a copy that shares the bytes; else a search for each
    /// component, once more for each link that is followed.
    pub fn resolve(&self, p: &Path) -> Result<Option<Path>, NoMemory>
        ensures { IfOk result (λ r. r ≡ way_in self.now p.now) }
    {
        if !self.linked {
            return Ok(Some(p.copy()?));
        }
        self.resolve_from(self.alloc, MOST, p.copy()?)
    }

    /// What stands at a path behind the links on its way; `None` also where these lead nowhere. It
    /// costs what `resolve` does, and a search.
    pub fn behind(&self, p: &Path) -> Result<Option<&Node>, NoMemory>
        ensures { IfOk result (λ n. option_copied n ≡ node_behind self.now p.now) }
    {
        match self.resolve(p)? {
            Some(q) => Ok(self.get(&q)),
            None => Ok(None),
        }
    }

    /// The kind of what stands at a path behind the links.
    pub fn kind_behind(&self, p: &Path) -> Result<Kind, NoMemory>
        ensures { IfOk result (λ k. k ≡ kind_of (node_behind self.now p.now)) }
    {
        Ok(match self.behind(p)? {
            Some(n) => n.kind(),
            None => Kind::Absent,
        })
    }

    /// The stamp of what stands at a path behind the links; `None` where nothing does.
    pub fn stamp_behind(&self, p: &Path) -> Result<Option<u64>, NoMemory>
        ensures { IfOk result (λ stamp. stamp ≡ stamp_of (node_behind self.now p.now)) }
    {
        Ok(self.behind(p)?.map(|n| n.stamp()))
    }
}
