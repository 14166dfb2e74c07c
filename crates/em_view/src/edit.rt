//! Removing and touching what is there.
ghost use Rattle.std.specs.Prelude.{◌≡◌, ◌<◌, ◌≤◌, IsErrOf, None, OnErr, Some};
ghost use Rattle.em_path.specs.Paths.{IsPath, parent_text};
ghost use Rattle.em_tree.specs.declared.node.Kind.TheVariants as kind;
ghost use Rattle.em_view.specs.declared.no.DeskNo.TheVariants as no;
ghost use Rattle.em_view.specs.declared.no.FileNo.TheVariants as file;
ghost use Rattle.em_view.specs.Held.{IsSeen, IsSoundDesk, MayGo};
ghost use Rattle.em_view.specs.Performs.{Keeps};
ghost use Rattle.em_view.specs.Rows.{Acts, take_away, remove_dir, remove_under, remove, touch_dir, touch_file, touch_at, touch};

use crate::desk::Desk;
use crate::no::{DeskNo, FileNo};
use crate::refuse::names_refusal;
use crate::view::View;
use em_path::Path;
use em_tree::{Kind, Node};

impl<V: View> Desk<V> {
    /// Takes away what stands at a path, which has nothing under it.
    fn take_away(&mut self, q: &Path, above: Path, followed: u64) -> Result<(), DeskNo>
        requires path { IsPath q.now }
        requires parent { parent_text q.now ≡ Some above }
        requires few { followed ≤ 40 }
        requires sound { IsSoundDesk self.old }
        requires gone { MayGo self.old q.now }
        ensures performs { Acts V.tells self.old self.new result
            (take_away q.now above followed) }
        ensures err { OnErr result (Keeps 41 self.old.work self.new.work) }
    {
        let _text = above.text();
        self.pay(followed)?;
        self.change(q.copy()?, None, Some(above))
    }

    /// Takes a directory away, if it is empty.
    fn remove_dir(&mut self, q: &Path, above: Path, followed: u64) -> Result<(), DeskNo>
        requires path { IsPath q.now }
        requires parent { parent_text q.now ≡ Some above }
        requires few { followed ≤ 40 }
        requires sound { IsSoundDesk self.old }
        requires seen { IsSeen self.old q.now kind.Dir }
        ensures performs { Acts V.tells self.old self.new result
            (remove_dir q.now above followed) }
        ensures err { OnErr result (Keeps 41 self.old.work self.new.work) }
    {
        let names = self.names_below(q)?;
        if let Some(no) = names_refusal(&names) {
            return Err(DeskNo::File(no));
        }
        self.take_away(q, above, followed)
    }

    /// Takes away what stands at a path behind the links.
    fn remove_at(&mut self, q: &Path, followed: u64) -> Result<(), DeskNo>
        requires path { IsPath q.now }
        requires few { followed ≤ 40 }
        requires sound { IsSoundDesk self.old }
        ensures performs { Acts V.tells self.old self.new result
            (remove_under (parent_text q.now) q.now followed) }
        ensures err { OnErr result (Keeps 41 self.old.work self.new.work) }
    {
        let Some(above) = self.above(q)? else {
            return Err(DeskNo::File(FileNo::Root));
        };
        match self.kind_below(q)? {
            Kind::Absent => Err(DeskNo::File(FileNo::Absent)),
            Kind::File => self.take_away(q, above, followed),
            Kind::Dir => self.remove_dir(q, above, followed),
            Kind::Link => self.take_away(q, above, followed),
        }
    }

    /// Takes a file, a link or an empty directory away, and stamps the directory above; what a link
    /// leads to stays. Refusals, in this order: `Root`, before anything is asked; `TooManyLinks` and
    /// `LinkPath`, of the links above; `Absent`; `NotEmpty`. A directory of which the view tells no
    /// list of names is empty. It costs 1, and 1 for each link that is followed.
    pub fn remove(&mut self, p: &Path) -> Result<(), DeskNo>
        ensures performs { Acts V.tells self.old self.new result (remove p.now) }
        ensures root { parent_text p.now ≡ None → 1 ≤ self.old.work.fuel
            → IsErrOf result (no.File file.Root) }
        ensures spent { self.old.work.fuel < 1 → IsErrOf result no.Spent }
        ensures err { OnErr result (Keeps 41 self.old.work self.new.work) }
    {
        self.ready()?;
        let Some(_above) = self.above(p)? else {
            return Err(DeskNo::File(FileNo::Root));
        };
        let target = self.target(false, p)?;
        self.remove_at(&target.0, target.1)
    }

    fn touch_dir(&mut self, q: &Path, followed: u64) -> Result<(), DeskNo>
        requires path { IsPath q.now }
        requires few { followed ≤ 40 }
        requires sound { IsSoundDesk self.old }
        requires seen { IsSeen self.old q.now kind.Dir }
        ensures performs { Acts V.tells self.old self.new result (touch_dir q.now followed) }
        ensures err { OnErr result (Keeps 41 self.old.work self.new.work) }
    {
        self.pay(followed)?;
        let stamp = self.number();
        self.change(q.copy()?, Some(Node::Dir { stamp }), None)
    }

    fn touch_file(&mut self, q: &Path, followed: u64) -> Result<(), DeskNo>
        requires path { IsPath q.now }
        requires few { followed ≤ 40 }
        requires sound { IsSoundDesk self.old }
        requires seen { IsSeen self.old q.now kind.File }
        ensures performs { Acts V.tells self.old self.new result (touch_file q.now followed) }
        ensures err { OnErr result (Keeps 41 self.old.work self.new.work) }
    {
        let Some(body) = self.content_below(q)? else {
            return Err(DeskNo::File(FileNo::Absent));
        };
        self.pay(followed)?;
        let stamp = self.number();
        self.change(q.copy()?, Some(Node::File { body, stamp }), None)
    }

    /// Stamps what stands at a path behind the links.
    fn touch_at(&mut self, q: &Path, followed: u64) -> Result<(), DeskNo>
        requires path { IsPath q.now }
        requires few { followed ≤ 40 }
        requires sound { IsSoundDesk self.old }
        ensures performs { Acts V.tells self.old self.new result (touch_at q.now followed) }
        ensures err { OnErr result (Keeps 41 self.old.work self.new.work) }
    {
        match self.kind_below(q)? {
            Kind::Absent => Err(DeskNo::File(FileNo::Absent)),
            Kind::Dir => self.touch_dir(q, followed),
            Kind::File => self.touch_file(q, followed),
            Kind::Link => Err(DeskNo::File(FileNo::Absent)),
        }
    }

    /// Gives what stands at a path behind the links the stamp of the change. A file keeps its
    /// bytes, so they are asked for; where they are then told to be absent, so is the file.
    /// Refusals, in this order: `TooManyLinks` and `LinkPath`; `Absent`. It costs 1, and 1 for each
    /// link that is followed.
    pub fn touch(&mut self, p: &Path) -> Result<(), DeskNo>
        ensures performs { Acts V.tells self.old self.new result (touch p.now) }
        ensures spent { self.old.work.fuel < 1 → IsErrOf result no.Spent }
        ensures err { OnErr result (Keeps 41 self.old.work self.new.work) }
    {
        self.ready()?;
        let target = self.target(true, p)?;
        self.touch_at(&target.0, target.1)
    }
}
