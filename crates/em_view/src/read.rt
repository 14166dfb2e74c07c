//! What a desk tells of a tree.
ghost use Rattle.std.specs.Prelude.{◌≡◌, ◌+◌, ◌<◌, ◌≤◌, IfErr, IsErrOf, OnErr, false};
ghost use Rattle.em_view.specs.declared.no.DeskNo.TheVariants as no;
ghost use Rattle.em_view.specs.Rows.{Acts, is_refusal, kind_at, kind_to, stamp_at, stamp_to, content, content_to, names, names_to, link_at, link_to, outcome};

use crate::ask::outcome_in;
use crate::cost::{blocks, body_size, names_size, text_size};
use crate::desk::Desk;
use crate::no::DeskNo;
use crate::view::View;
use em_path::Path;
use em_tree::{Body, Kind, LinkText, NameList, Outcome, Question, Way};

impl<V: View> Desk<V> {
    fn kind_to(&mut self, way: &Way) -> Result<Kind, DeskNo>
        ensures performs { Acts V.tells self.old self.new result (kind_to way.now) }
        ensures only { IfErr result (λ e. e ≡ no.NoMemory) }
        ensures still { self.new.work ≡ record self.old.work { asked = self.new.work.asked } }
    {
        match way {
            Way::To(q) => self.kind_below(q),
            _ => Ok(Kind::Absent),
        }
    }

    /// What kind of node stands at a path, behind the links on its way; absent where these lead
    /// nowhere. It costs 1, and 1 for each link that is followed. A search for each component.
    pub fn kind(&mut self, p: &Path) -> Result<Kind, DeskNo>
        ensures performs { Acts V.tells self.old self.new result (kind_at p.now) }
        ensures still { self.new.work
            ≡ record self.old.work { fuel = self.new.work.fuel; asked = self.new.work.asked } }
        ensures err { OnErr result (self.old.work.fuel ≤ self.new.work.fuel + 1) }
        ensures spent { self.old.work.fuel < 1 → IsErrOf result no.Spent }
        ensures unrefused { IfErr result (λ e. is_refusal e ≡ false) }
    {
        self.take(1)?;
        let led = self.resolve(true, p)?;
        let kind = self.kind_to(&led.way)?;
        self.take(led.followed)?;
        Ok(kind)
    }

    fn stamp_to(&mut self, way: &Way) -> Result<Option<u64>, DeskNo>
        ensures performs { Acts V.tells self.old self.new result (stamp_to way.now) }
        ensures only { IfErr result (λ e. e ≡ no.NoMemory) }
        ensures still { self.new.work ≡ record self.old.work { asked = self.new.work.asked } }
    {
        match way {
            Way::To(q) => self.stamp_below(q),
            _ => Ok(None),
        }
    }

    /// The stamp of the node at a path behind the links, if one is there. It costs as `kind` does.
    pub fn stamp(&mut self, p: &Path) -> Result<Option<u64>, DeskNo>
        ensures performs { Acts V.tells self.old self.new result (stamp_at p.now) }
        ensures still { self.new.work
            ≡ record self.old.work { fuel = self.new.work.fuel; asked = self.new.work.asked } }
        ensures err { OnErr result (self.old.work.fuel ≤ self.new.work.fuel + 1) }
        ensures spent { self.old.work.fuel < 1 → IsErrOf result no.Spent }
        ensures unrefused { IfErr result (λ e. is_refusal e ≡ false) }
    {
        self.take(1)?;
        let led = self.resolve(true, p)?;
        let stamp = self.stamp_to(&led.way)?;
        self.take(led.followed)?;
        Ok(stamp)
    }

    fn content_to(&mut self, way: &Way) -> Result<Option<Body>, DeskNo>
        ensures performs { Acts V.tells self.old self.new result (content_to way.now) }
        ensures only { IfErr result (λ e. e ≡ no.NoMemory) }
        ensures still { self.new.work ≡ record self.old.work { asked = self.new.work.asked } }
    {
        match way {
            Way::To(q) => self.content_below(q),
            _ => Ok(None),
        }
    }

    /// The bytes of the file at a path behind the links; `None` where no file is there. It costs as
    /// `kind` does, and the blocks of the bytes.
    pub fn content(&mut self, p: &Path) -> Result<Option<Body>, DeskNo>
        ensures performs { Acts V.tells self.old self.new result (content p.now) }
        ensures still { self.new.work
            ≡ record self.old.work { fuel = self.new.work.fuel; asked = self.new.work.asked } }
        ensures err { OnErr result (self.old.work.fuel ≤ self.new.work.fuel + 1) }
        ensures spent { self.old.work.fuel < 1 → IsErrOf result no.Spent }
        ensures unrefused { IfErr result (λ e. is_refusal e ≡ false) }
    {
        self.take(1)?;
        let led = self.resolve(true, p)?;
        let body = self.content_to(&led.way)?;
        self.take(blocks(body_size(&body)) + led.followed)?;
        Ok(body)
    }

    fn names_to(&mut self, way: &Way) -> Result<Option<NameList>, DeskNo>
        ensures performs { Acts V.tells self.old self.new result (names_to way.now) }
        ensures only { IfErr result (λ e. e ≡ no.NoMemory) }
        ensures still { self.new.work ≡ record self.old.work { asked = self.new.work.asked } }
    {
        match way {
            Way::To(q) => self.names_below(q),
            _ => Ok(None),
        }
    }

    /// The names of the directory at a path behind the links, in byte order; `None` where no
    /// directory is there. It costs as `kind` does, and the blocks of the names' bytes.
    pub fn names(&mut self, p: &Path) -> Result<Option<NameList>, DeskNo>
        ensures performs { Acts V.tells self.old self.new result (names p.now) }
        ensures still { self.new.work
            ≡ record self.old.work { fuel = self.new.work.fuel; asked = self.new.work.asked } }
        ensures err { OnErr result (self.old.work.fuel ≤ self.new.work.fuel + 1) }
        ensures spent { self.old.work.fuel < 1 → IsErrOf result no.Spent }
        ensures unrefused { IfErr result (λ e. is_refusal e ≡ false) }
    {
        self.take(1)?;
        let led = self.resolve(true, p)?;
        let names = self.names_to(&led.way)?;
        self.take(blocks(names_size(&names)) + led.followed)?;
        Ok(names)
    }

    fn link_to(&mut self, way: &Way) -> Result<Option<LinkText>, DeskNo>
        ensures performs { Acts V.tells self.old self.new result (link_to way.now) }
        ensures only { IfErr result (λ e. e ≡ no.NoMemory) }
        ensures still { self.new.work ≡ record self.old.work { asked = self.new.work.asked } }
    {
        match way {
            Way::To(q) => self.link_below(q),
            _ => Ok(None),
        }
    }

    /// What the symbolic link at a path says; `None` where no link is there. Links above it are
    /// followed, it itself isn't. It costs as `kind` does, and the blocks of the text.
    pub fn link(&mut self, p: &Path) -> Result<Option<LinkText>, DeskNo>
        ensures performs { Acts V.tells self.old self.new result (link_at p.now) }
        ensures still { self.new.work
            ≡ record self.old.work { fuel = self.new.work.fuel; asked = self.new.work.asked } }
        ensures err { OnErr result (self.old.work.fuel ≤ self.new.work.fuel + 1) }
        ensures spent { self.old.work.fuel < 1 → IsErrOf result no.Spent }
        ensures unrefused { IfErr result (λ e. is_refusal e ≡ false) }
    {
        self.take(1)?;
        let led = self.resolve(false, p)?;
        let text = self.link_to(&led.way)?;
        self.take(blocks(text_size(&text)) + led.followed)?;
        Ok(text)
    }

    /// How job j ended, if it has ended. It costs 1.
    pub fn outcome(&mut self, j: u32) -> Result<Option<Outcome>, DeskNo>
        ensures performs { Acts V.tells self.old self.new result (outcome j) }
        ensures still { self.new.work
            ≡ record self.old.work { fuel = self.new.work.fuel; asked = self.new.work.asked } }
        ensures err { OnErr result (self.old.work.fuel ≤ self.new.work.fuel + 1) }
        ensures spent { self.old.work.fuel < 1 → IsErrOf result no.Spent }
        ensures unrefused { IfErr result (λ e. is_refusal e ≡ false) }
    {
        self.take(1)?;
        let answer = self.ask(Question::Outcome(j))?;
        Ok(outcome_in(answer))
    }
}
