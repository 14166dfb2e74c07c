//! Where a path leads, under the job's own changes.
ghost use Rattle.std.specs.Prelude.{◌≡◌, ◌+◌, ◌≤◌, IfErr, IfOk};
ghost use Rattle.em_path.specs.Paths.{IsPath};
ghost use Rattle.em_tree.specs.Trees.{link_of};
ghost use Rattle.em_view.specs.Rows.{Acts};
ghost use Rattle.em_view.specs.Walking.{link_in, link_below, passed, pass, resolve_from, resolve, target};
ghost use Rattle.em_view.specs.declared.no.DeskNo.TheVariants as no;

use crate::desk::Desk;
use crate::no::{DeskNo, FileNo};
use crate::view::View;
use em_base::NoMemory;
use em_path::Path;
use em_tree::{
    Answer, LEVELS, Led, LinkText, Look, MOST, Met, Node, Question, Way, dir_of, onward, path_in,
};

fn link_in(answer: Answer) -> Option<LinkText>
    ensures { result ≡ link_in answer }
{
    match answer {
        Answer::Link(text) => text,
        _ => None,
    }
}

fn link_of(node: &Option<Node>) -> Result<Option<LinkText>, NoMemory>
    ensures { IfOk result (λ text. text ≡ link_of node.now) }
{
    match node {
        Some(Node::Link { text, .. }) => Ok(Some(text.copy()?)),
        _ => Ok(None),
    }
}

/// The path that was asked of last.
fn asked_last(looks: &[Look]) -> Option<&Path> {
    path_in(&looks.last()?.entry.question)
}

impl<V: View> Desk<V> {
    /// The same path, in the bytes of the one asked of last where that is equal. So a path that is
    /// asked of again and again, as by a loop over `test -f`, is kept once.
    fn kept(&self, p: &Path) -> Result<Path, NoMemory>
        ensures { IfOk result (λ q. q ≡ p.now) }
    {
        match asked_last(self.usage.as_slice()) {
            Some(last) if last == p => last.copy(),
            _ => p.copy(),
        }
    }

    pub(crate) fn link_below(&mut self, p: &Path) -> Result<Option<LinkText>, DeskNo>
        ensures performs { Acts V.tells self.old self.new result (link_below p.now) }
        ensures only { IfErr result (λ e. e ≡ no.NoMemory) }
        ensures still { self.new.work ≡ record self.old.work { asked = self.new.work.asked } }
    {
        if let Some(node) = self.own(p) {
            return Ok(link_of(node)?);
        }
        let answer = self.ask(Question::Link(p.copy()?))?;
        Ok(link_in(answer))
    }

    /// The first link among the path and the directories above it, of which so many are looked at.
    fn passed(&mut self, left: u32, p: &Path) -> Result<Option<Met>, DeskNo>
        ensures performs { Acts V.tells self.old self.new result (passed left p.now) }
        ensures only { IfErr result (λ e. e ≡ no.NoMemory) }
        ensures still { self.new.work ≡ record self.old.work { asked = self.new.work.asked } }
    {
        if left == 0 {
            return Ok(None);
        }
        let Some(dir) = dir_of(self.alloc, p)? else {
            return Ok(None);
        };
        let above = self.passed(left - 1, &dir)?;
        if above.is_some() {
            return Ok(above);
        }
        match self.link_below(p)? {
            Some(text) => Ok(Some(Met {
                dir,
                link: p.copy()?,
                text,
            })),
            None => Ok(None),
        }
    }

    /// The first link on the way of a path; without `last` the path itself isn't looked at.
    fn pass(&mut self, last: bool, p: &Path) -> Result<Option<Met>, DeskNo>
        ensures performs { Acts V.tells self.old self.new result (pass last p.now) }
        ensures only { IfErr result (λ e. e ≡ no.NoMemory) }
        ensures still { self.new.work ≡ record self.old.work { asked = self.new.work.asked } }
    {
        if last {
            return self.passed(LEVELS, p);
        }
        match dir_of(self.alloc, p)? {
            Some(dir) => self.passed(LEVELS, &dir),
            None => Ok(None),
        }
    }

    /// Where the path leads, behind so many links, where so many more may be followed.
    fn resolve_from(&mut self, last: bool, left: u32, followed: u64, p: Path) -> Result<Led, DeskNo>
        requires most { left + followed ≤ 40 }
        ensures performs { Acts V.tells self.old self.new result (resolve_from last left followed p) }
        ensures only { IfErr result (λ e. e ≡ no.NoMemory) }
        ensures still { self.new.work ≡ record self.old.work { asked = self.new.work.asked } }
        ensures few { IfOk result (λ f. f.followed ≤ 40) }
    {
        let Some(met) = self.pass(last, &p)? else {
            return Ok(Led {
                way: Way::To(p),
                followed,
            });
        };
        if left == 0 {
            return Ok(Led {
                way: Way::TooMany,
                followed,
            });
        }
        match onward(self.alloc, &p, &met)? {
            Some(q) => self.resolve_from(last, left - 1, followed + 1, q),
            None => Ok(Led {
                way: Way::Bad,
                followed,
            }),
        }
    }

    /// Where the path leads, and how many links were followed, at most 40. With `last` a link at
    /// the path itself is followed too.
    pub(crate) fn resolve(&mut self, last: bool, p: &Path) -> Result<Led, DeskNo>
        ensures performs { Acts V.tells self.old self.new result (resolve last p.now) }
        ensures only { IfErr result (λ e. e ≡ no.NoMemory) }
        ensures still { self.new.work ≡ record self.old.work { asked = self.new.work.asked } }
        ensures few { IfOk result (λ f. f.followed ≤ 40) }
    {
        let q = self.kept(p)?;
        self.resolve_from(last, MOST, 0, q)
    }

    /// The path that is changed, and how many links were followed to it.
    pub(crate) fn target(&mut self, last: bool, p: &Path) -> Result<(Path, u64), DeskNo>
        ensures performs { Acts V.tells self.old self.new result (target last p.now) }
        ensures still { self.new.work ≡ record self.old.work { asked = self.new.work.asked } }
        ensures few { IfOk result (λ t. t.1 ≤ 40) }
        ensures path { IfOk result (λ t. IsPath t.0) }
    {
        let Led { way, followed } = self.resolve(last, p)?;
        match way {
            Way::To(q) => {
                let _text = q.text();
                Ok((q, followed))
            }
            Way::TooMany => Err(DeskNo::File(FileNo::TooManyLinks)),
            Way::Bad => Err(DeskNo::File(FileNo::LinkPath)),
        }
    }
}
