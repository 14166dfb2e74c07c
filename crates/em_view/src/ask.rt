//! What stands at a path, under the job's own changes.
ghost use Rattle.std.specs.Prelude.{◌≡◌, IfErr, IfOk, IfSome, None, Ok, Some, option_copied, unwrap_or, []};
ghost use Rattle.em_path.specs.Paths.{IsPath, parent_text};
ghost use Rattle.em_tree.specs.Trees.{kind_of, stamp_of, content_of};
ghost use Rattle.em_view.specs.Rows.{Acts, is_dir, kind_in, stamp_in, content_in, names_in, outcome_in, kind_below, stamp_below, content_below, amend, told_names, made_names, other_names, names_below, look};
ghost use Rattle.em_view.specs.declared.no.DeskNo.TheVariants as no;

use crate::desk::Desk;
use crate::names::with_own;
use crate::no::DeskNo;
use crate::view::View;
use em_base::NoMemory;
use em_path::Path;
use em_tree::{Answer, Body, Kind, NameList, Node, Outcome, Question};
use std::alloc::Global;

fn kind_in(answer: Answer) -> Kind
    ensures { result ≡ kind_in answer }
{
    match answer {
        Answer::Kind(kind) => kind,
        _ => Kind::Absent,
    }
}

fn stamp_in(answer: Answer) -> Option<u64>
    ensures { result ≡ stamp_in answer }
{
    match answer {
        Answer::Stamp(stamp) => stamp,
        _ => None,
    }
}

fn content_in(answer: Answer) -> Option<Body>
    ensures { result ≡ content_in answer }
{
    match answer {
        Answer::Content(body) => body,
        _ => None,
    }
}

pub(crate) fn names_in(answer: Answer) -> Option<NameList>
    ensures { result ≡ names_in answer }
{
    match answer {
        Answer::Names(names) => names,
        _ => None,
    }
}

pub(crate) fn outcome_in(answer: Answer) -> Option<Outcome>
    ensures { result ≡ outcome_in answer }
{
    match answer {
        Answer::Outcome(outcome) => outcome,
        _ => None,
    }
}

fn kind_of(node: &Option<Node>) -> Kind
    ensures { result ≡ kind_of node.now }
{
    match node {
        Some(node) => node.kind(),
        None => Kind::Absent,
    }
}

fn is_dir(node: &Option<Node>) -> bool
    ensures { result ≡ is_dir node.now }
{
    matches!(node, Some(Node::Dir { .. }))
}

fn stamp_of(node: &Option<Node>) -> Option<u64>
    ensures { result ≡ stamp_of node.now }
{
    match node {
        Some(node) => Some(node.stamp()),
        None => None,
    }
}

fn content_of(node: &Option<Node>) -> Result<Option<Body>, NoMemory>
    ensures { IfOk result (λ body. body ≡ content_of node.now) }
{
    match node {
        Some(Node::File { body, .. }) => Ok(Some(body.copy()?)),
        _ => Ok(None),
    }
}

/// The names, or no names.
fn or_none(alloc: Global, names: Option<NameList>) -> NameList
    ensures { result ≡ unwrap_or names [] }
{
    match names {
        Some(names) => names,
        None => NameList::new(alloc),
    }
}

impl<V: View> Desk<V> {
    pub(crate) fn kind_below(&mut self, p: &Path) -> Result<Kind, DeskNo>
        ensures performs { Acts V.tells self.old self.new result (kind_below p.now) }
        ensures only { IfErr result (λ e. e ≡ no.NoMemory) }
        ensures still { self.new.work ≡ record self.old.work { asked = self.new.work.asked } }
    {
        if let Some(node) = self.own(p) {
            return Ok(kind_of(node));
        }
        let answer = self.ask(Question::Kind(p.copy()?))?;
        Ok(kind_in(answer))
    }

    pub(crate) fn stamp_below(&mut self, p: &Path) -> Result<Option<u64>, DeskNo>
        ensures performs { Acts V.tells self.old self.new result (stamp_below p.now) }
        ensures only { IfErr result (λ e. e ≡ no.NoMemory) }
        ensures still { self.new.work ≡ record self.old.work { asked = self.new.work.asked } }
    {
        if let Some(node) = self.own(p) {
            return Ok(stamp_of(node));
        }
        let answer = self.ask(Question::Stamp(p.copy()?))?;
        Ok(stamp_in(answer))
    }

    pub(crate) fn content_below(&mut self, p: &Path) -> Result<Option<Body>, DeskNo>
        ensures performs { Acts V.tells self.old self.new result (content_below p.now) }
        ensures only { IfErr result (λ e. e ≡ no.NoMemory) }
        ensures still { self.new.work ≡ record self.old.work { asked = self.new.work.asked } }
    {
        if let Some(node) = self.own(p) {
            return Ok(content_of(node)?);
        }
        let answer = self.ask(Question::Content(p.copy()?))?;
        Ok(content_in(answer))
    }

    /// Names with the job's own children among them.
    fn amended(&self, p: &Path, names: Option<NameList>) -> Result<Option<NameList>, DeskNo>
        ensures performs { Acts V.tells self.now self.now result (amend p.now names) }
        ensures only { IfErr result (λ e. e ≡ no.NoMemory) }
    {
        match names {
            Some(names) => Ok(Some(with_own(self.alloc, &self.changes, p, names)?)),
            None => Ok(None),
        }
    }

    /// What is told of the names of a path.
    fn told_names(&mut self, p: &Path) -> Result<Option<NameList>, DeskNo>
        ensures performs { Acts V.tells self.old self.new result (told_names p.now) }
        ensures only { IfErr result (λ e. e ≡ no.NoMemory) }
        ensures still { self.new.work ≡ record self.old.work { asked = self.new.work.asked } }
    {
        let answer = self.ask(Question::Names(p.copy()?))?;
        Ok(names_in(answer))
    }

    /// The names of a path that the job made a directory: as told of the path, or none.
    fn made_names(&mut self, p: &Path) -> Result<Option<NameList>, DeskNo>
        ensures performs { Acts V.tells self.old self.new result (made_names p.now) }
        ensures only { IfErr result (λ e. e ≡ no.NoMemory) }
        ensures still { self.new.work ≡ record self.old.work { asked = self.new.work.asked } }
    {
        let names = self.told_names(p)?;
        self.amended(p, Some(or_none(self.alloc, names)))
    }

    fn other_names(&mut self, p: &Path) -> Result<Option<NameList>, DeskNo>
        ensures performs { Acts V.tells self.old self.new result (other_names p.now) }
        ensures only { IfErr result (λ e. e ≡ no.NoMemory) }
        ensures still { self.new.work ≡ record self.old.work { asked = self.new.work.asked } }
    {
        let names = self.told_names(p)?;
        self.amended(p, names)
    }

    pub(crate) fn names_below(&mut self, p: &Path) -> Result<Option<NameList>, DeskNo>
        ensures performs { Acts V.tells self.old self.new result (names_below p.now) }
        ensures only { IfErr result (λ e. e ≡ no.NoMemory) }
        ensures still { self.new.work ≡ record self.old.work { asked = self.new.work.asked } }
    {
        match self.own(p) {
            None => self.other_names(p),
            Some(own) => {
                if is_dir(own) {
                    self.made_names(p)
                } else {
                    Ok(None)
                }
            }
        }
    }

    /// The parent of a path, if it isn't the root.
    pub(crate) fn above(&self, p: &Path) -> Result<Option<Path>, DeskNo>
        ensures ok { IfOk result (λ q. q ≡ parent_text p.now) }
        ensures path { IfOk result (λ q. IfSome q IsPath) }
        ensures root { parent_text p.now ≡ None → result ≡ Ok None }
        ensures only { IfErr result (λ e. e ≡ no.NoMemory) }
    {
        match p.parent(self.alloc) {
            Ok(Some(above)) => {
                let _text = above.text();
                Ok(Some(above))
            }
            Ok(None) => Ok(None),
            Err(_) => Err(DeskNo::NoMemory),
        }
    }

    /// The kind of a path and that of its parent, which the root has none of.
    pub(crate) fn look(
        &mut self,
        p: &Path,
        above: &Option<Path>,
    ) -> Result<(Kind, Option<Kind>), DeskNo>
        requires parent { above.now ≡ parent_text p.now }
        ensures performs { Acts V.tells self.old self.new result (look p.now) }
        ensures only { IfErr result (λ e. e ≡ no.NoMemory) }
        ensures still { self.new.work ≡ record self.old.work { asked = self.new.work.asked } }
    {
        let kind = self.kind_below(p)?;
        let Some(above) = above else {
            return Ok((kind, None));
        };
        let over = self.kind_below(above)?;
        Ok((kind, Some(over)))
    }
}
