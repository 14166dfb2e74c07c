//! What a desk changes of a tree.
ghost use Rattle.std.specs.Prelude.{◌≡◌, ◌+◌, ◌<◌, ◌≤◌, length, IsErrOf, OnErr};
ghost use Rattle.em_path.specs.Paths.{IsPath};
ghost use Rattle.em_tree.specs.LinkTexts.{IsLinkText};
ghost use Rattle.em_view.specs.declared.no.DeskNo.TheVariants as no;
ghost use Rattle.em_view.specs.Held.{IsSoundDesk};
ghost use Rattle.em_view.specs.Performs.{Keeps};
ghost use Rattle.em_view.specs.Rows.{Acts, blocks, put, put_at, place, place_at, make_dir, make_dir_at, make_link, make_link_at};

use crate::cost::blocks;
use crate::desk::Desk;
use crate::no::DeskNo;
use crate::refuse::{dir_refusal, put_refusal, stamped};
use crate::view::View;
use em_base::Text;
use em_path::Path;
use em_tree::{Body, LinkText, Node};

impl<V: View> Desk<V> {
    fn put_at(&mut self, q: &Path, followed: u64, bytes: &[u8]) -> Result<(), DeskNo>
        requires path { IsPath q.now }
        requires few { followed ≤ 40 }
        requires sound { IsSoundDesk self.old }
        ensures performs { Acts V.tells self.old self.new result (put_at q.now followed bytes.now) }
        ensures err { OnErr result
            (Keeps (41 + blocks (length bytes.now)) self.old.work self.new.work) }
    {
        let above = self.above(q)?;
        let spot = self.look(q, &above)?;
        if let Some(no) = put_refusal(spot.0, spot.1, bytes.len() as u64) {
            return Err(DeskNo::File(no));
        }
        self.pay(blocks(bytes.len() as u64) + followed)?;
        let stamp = self.number();
        let body = Body::from_slice(self.alloc, bytes)?;
        self.change(
            q.copy()?,
            Some(Node::File { body, stamp }),
            stamped(spot.0, above),
        )
    }

    /// Puts a file of these bytes at a path, with the stamp of the change; a link there is
    /// followed. The directory above is stamped where the name is new. Refusals, in this order:
    /// `TooManyLinks` and `LinkPath`, exactly where the links on the way lead nowhere; `IsDir`, also
    /// of the root; `NoParent`, `NotDir`; `TooBig`. It costs 1, the blocks of the bytes, and 1 for
    /// each link that is followed.
    pub fn put(&mut self, p: &Path, bytes: &[u8]) -> Result<(), DeskNo>
        ensures performs { Acts V.tells self.old self.new result (put p.now bytes.now) }
        ensures spent { self.old.work.fuel < 1 → IsErrOf result no.Spent }
        ensures err { OnErr result
            (Keeps (41 + blocks (length bytes.now)) self.old.work self.new.work) }
    {
        self.ready()?;
        let target = self.target(true, p)?;
        self.put_at(&target.0, target.1, bytes)
    }

    fn place_at(&mut self, q: &Path, followed: u64, bytes: &[u8], stamp: u64) -> Result<(), DeskNo>
        requires path { IsPath q.now }
        requires few { followed ≤ 40 }
        requires sound { IsSoundDesk self.old }
        ensures performs { Acts V.tells self.old self.new result
            (place_at q.now followed bytes.now stamp) }
        ensures err { OnErr result
            (Keeps (41 + blocks (length bytes.now)) self.old.work self.new.work) }
    {
        let above = self.above(q)?;
        let spot = self.look(q, &above)?;
        if let Some(no) = put_refusal(spot.0, spot.1, bytes.len() as u64) {
            return Err(DeskNo::File(no));
        }
        self.pay(blocks(bytes.len() as u64) + followed)?;
        let body = Body::from_slice(self.alloc, bytes)?;
        self.change(q.copy()?, Some(Node::File { body, stamp }), above)
    }

    /// Puts a file of these bytes and this stamp at a path, as `put` does, but in place of a link;
    /// the directory above is always stamped.
    pub fn place(&mut self, p: &Path, bytes: &[u8], stamp: u64) -> Result<(), DeskNo>
        ensures performs { Acts V.tells self.old self.new result (place p.now bytes.now stamp) }
        ensures spent { self.old.work.fuel < 1 → IsErrOf result no.Spent }
        ensures err { OnErr result
            (Keeps (41 + blocks (length bytes.now)) self.old.work self.new.work) }
    {
        self.ready()?;
        let target = self.target(false, p)?;
        self.place_at(&target.0, target.1, bytes, stamp)
    }

    fn make_dir_at(&mut self, q: &Path, followed: u64) -> Result<(), DeskNo>
        requires path { IsPath q.now }
        requires few { followed ≤ 40 }
        requires sound { IsSoundDesk self.old }
        ensures performs { Acts V.tells self.old self.new result (make_dir_at q.now followed) }
        ensures err { OnErr result (Keeps 41 self.old.work self.new.work) }
    {
        let above = self.above(q)?;
        let spot = self.look(q, &above)?;
        if let Some(no) = dir_refusal(spot.0, spot.1) {
            return Err(DeskNo::File(no));
        }
        self.pay(followed)?;
        let stamp = self.number();
        self.change(q.copy()?, Some(Node::Dir { stamp }), above)
    }

    /// Makes a directory at a path where nothing is, not even a link, and stamps the directory
    /// above. Refusals, in this order: `TooManyLinks` and `LinkPath`; `Exists`, also of the root;
    /// `NoParent`, `NotDir`. It costs 1, and 1 for each link that is followed.
    pub fn make_dir(&mut self, p: &Path) -> Result<(), DeskNo>
        ensures performs { Acts V.tells self.old self.new result (make_dir p.now) }
        ensures spent { self.old.work.fuel < 1 → IsErrOf result no.Spent }
        ensures err { OnErr result (Keeps 41 self.old.work self.new.work) }
    {
        self.ready()?;
        let target = self.target(false, p)?;
        self.make_dir_at(&target.0, target.1)
    }

    fn make_link_at(&mut self, q: &Path, followed: u64, text: &[u8]) -> Result<(), DeskNo>
        requires path { IsPath q.now }
        requires few { followed ≤ 40 }
        requires text { IsLinkText text.now }
        requires sound { IsSoundDesk self.old }
        ensures performs { Acts V.tells self.old self.new result
            (make_link_at q.now followed text.now) }
        ensures err { OnErr result
            (Keeps (41 + blocks (length text.now)) self.old.work self.new.work) }
    {
        let above = self.above(q)?;
        let spot = self.look(q, &above)?;
        if let Some(no) = dir_refusal(spot.0, spot.1) {
            return Err(DeskNo::File(no));
        }
        self.pay(blocks(text.len() as u64) + followed)?;
        let stamp = self.number();
        let text = LinkText::new(Text::from_slice(self.alloc, text)?);
        self.change(q.copy()?, Some(Node::Link { text, stamp }), above)
    }

    /// Makes a symbolic link of this text at a path where nothing is, and stamps the directory
    /// above, as POSIX's `symlink`; the text need not lead to anything. Refusals are those of
    /// `make_dir`. It costs 1, the blocks of the text, and 1 for each link that is followed.
    pub fn make_link(&mut self, p: &Path, text: &[u8]) -> Result<(), DeskNo>
        requires text { IsLinkText text.now }
        ensures performs { Acts V.tells self.old self.new result (make_link p.now text.now) }
        ensures spent { self.old.work.fuel < 1 → IsErrOf result no.Spent }
        ensures err { OnErr result
            (Keeps (41 + blocks (length text.now)) self.old.work self.new.work) }
    {
        self.ready()?;
        let target = self.target(false, p)?;
        self.make_link_at(&target.0, target.1, text)
    }
}
