//! A desk: what a job has asked, what it was answered, and what it has changed.
ghost use Rattle.std.specs.Prelude.{◌≡◌, ◌≢◌, ◌+◌, ◌<◌, ◌≤◌, ◌^◌, ◌↔◌, ◌∷◌, ◌++◌, [], ℕ, IfOk, IfErr, IfSome, OnOk, OnErr, IsErr, option_copied};
ghost use Rattle.std.specs.FinMap as map;
ghost use Rattle.em_tree.specs.declared.question.Question.{Question};
ghost use Rattle.em_tree.specs.Usages.{flat};
ghost use Rattle.em_view.specs.declared.no.DeskNo.TheVariants as no;
ghost use Rattle.em_view.specs.Actions.{ask, ready, spend};
ghost use Rattle.em_view.specs.Asking.{Asks};
ghost use Rattle.em_view.specs.Held.{Fits, NamesPaths, IsSoundDesk};
ghost use Rattle.em_view.specs.Performs.{Keeps};
ghost use Rattle.em_view.specs.Rows.{Acts, pay, change_number, after_change};

use crate::no::DeskNo;
use crate::view::View;
use em_base::{Fuel, Spent};
use em_path::Path;
use em_tree::{Answer, Delta, Entry, Look, Node, Question, Usage, add_entry};
use std::alloc::Global;
use std::marker::Model;

/// Asks a view in the name of a job, keeps every answer in order, and holds what the job has
/// changed. What the job's own changes say of a path isn't asked. Each call costs fuel. Where
/// memory runs out, the answers are kept and no change is made; the units of the call may be spent.
/// Contracts see the view, the answers and a workspace.
#[derive(Drop)]
pub struct Desk<V> {
    pub(crate) alloc: Global,
    pub(crate) view: V,
    pub(crate) usage: Vec<Look>,
    pub(crate) base: u64,
    pub(crate) job: u32,
    pub(crate) given: u64,
    pub(crate) fuel: Fuel,
    pub(crate) count: u64,
    pub(crate) changes: Delta,
}

impl<V> Model for Desk<V> {
    ghost use Rattle.std.specs.Prelude.{map};
    ghost use Rattle.em_tree.specs.Usages.{flat};
    ghost use Rattle.em_view.specs.Performs.{DeskState};
    ghost use Rattle.em_view.specs.Codes.{desk_code};
    ghost use Rattle.em_view.specs.Asking.{Asks};
    ghost use Rattle.em_view.specs.Held.{IsSound};

    ghost Value = { DeskState V };

    ghost coded = { desk_code V.code };

    ghost view = { λ d. record {
      view = d.view;
      usage = flat d.usage.items;
      work = record {
        base = d.base;
        job = d.job;
        given = d.given;
        fuel = d.fuel;
        count = d.count;
        changes = d.changes;
        asked = map (λ e. e.question) (flat d.usage.items);
      };
    } };

    ghost invariant = { λ d. IsSound d.base d.given d.fuel d.count (flat d.usage.items) d.changes };
}

/// Asks, and keeps the answer. What was answered is kept also where memory then runs out.
fn ask_view<V: View>(
    alloc: Global,
    view: &mut V,
    usage: &mut Vec<Look>,
    question: Question,
) -> Result<Answer, DeskNo>
    ensures { Asks V.tells question view.old view.new
        (flat usage.old.items) (flat usage.new.items) result }
{
    usage.reserve(1)?;
    let answer = view.ask(alloc, &question)?;
    let copy = answer.copy(alloc);
    add_entry(usage, Entry { question, answer });
    Ok(copy?)
}

impl<V: View> Desk<V> {
    /// A desk of a job that has done nothing. `base` is the greatest stamp of the starting tree.
    pub fn new(alloc: Global, view: V, base: u64, job: u32, fuel: Fuel) -> Desk<V>
        requires base { base ≤ 2 ^ 62 }
        requires fuel { fuel ≤ 10000000 }
        ensures { result
            ≡ record {
              view = view;
              usage = [];
              work = record {
                base = base;
                job = job;
                given = fuel;
                fuel = fuel;
                count = 0;
                changes = map.empty;
                asked = [];
              };
            } }
    {
        Desk {
            alloc,
            view,
            usage: Vec::new(alloc),
            base,
            job,
            given: fuel.left(),
            fuel,
            count: 0,
            changes: Delta::new(alloc),
        }
    }

    /// The units that are left, at most 10,000,000.
    pub fn left(&self) -> u64
        ensures left { result ≡ self.now.work.fuel }
        ensures bound { result ≤ 10000000 }
    {
        self.fuel.left()
    }

    /// Takes n units. `Spent` comes exactly where fewer than n are left, and then nothing is taken.
    pub fn spend(&mut self, n: u64) -> Result<(), Spent>
        ensures spent { IsErr result ↔ (self.old.work.fuel < n) }
        ensures ok { OnOk result
            ((self.new
            ≡ record self.old { work = record self.old.work { fuel = self.new.work.fuel } })
            × (self.new.work.fuel + n ≡ self.old.work.fuel)) }
        ensures err { OnErr result (self.new ≡ self.old) }
    {
        self.fuel.spend(n)
    }

    /// The answers in order, the changes, and the fuel that was used.
    pub fn close(self) -> (Usage, Delta, u64)
        ensures usage { result.0 ≡ self.usage }
        ensures changes { result.1 ≡ self.work.changes }
        ensures used { result.2 + self.work.fuel ≡ self.work.given }
        ensures fits { Fits self.usage self.work.changes }
    {
        let used = self.given - self.fuel.left();
        (Usage::from_looks(self.usage), self.changes, used)
    }

    /// Takes n units, or is spent: `spend`, as an action.
    #[tactic(auto, unfolding(crate::specs::Actions::spend))]
    pub fn take(&mut self, n: u64) -> Result<(), DeskNo>
        ensures performs { Acts V.tells self.old self.new result (spend n) }
        ensures ok { OnOk result
            ((self.new
            ≡ record self.old { work = record self.old.work { fuel = self.new.work.fuel } })
            × (self.new.work.fuel + n ≡ self.old.work.fuel)) }
        ensures err { OnErr result (self.new ≡ self.old) }
        ensures only { IfErr result (λ e. e ≡ no.Spent) }
        ensures small { self.old.work.fuel ≤ 10000000 }
    {
        let _given = self.given;
        Ok(self.spend(n)?)
    }

    /// Takes a unit and n blocks, or is spent, where the unit may stay taken.
    pub(crate) fn pay(&mut self, n: u64) -> Result<(), DeskNo>
        ensures performs { Acts V.tells self.old self.new result (pay n) }
        ensures ok { OnOk result
            ((self.new
            ≡ record self.old { work = record self.old.work { fuel = self.new.work.fuel } })
            × (self.new.work.fuel + (1 + n) ≡ self.old.work.fuel)) }
        ensures err { OnErr result (Keeps 1 self.old.work self.new.work) }
        ensures still { self.new.work.changes ≡ self.old.work.changes }
    {
        self.take(1)?;
        self.take(n)
    }

    /// Spent where nothing is left.
    pub(crate) fn ready(&mut self) -> Result<(), DeskNo>
        ensures performs { Acts V.tells self.old self.new result ready }
        ensures same { self.new ≡ self.old }
        ensures sound { IsSoundDesk self.new }
        ensures ok { OnOk result (1 ≤ self.old.work.fuel) }
        ensures err { OnErr result (self.old.work.fuel < 1) }
        ensures only { IfErr result (λ e. e ≡ no.Spent) }
    {
        if self.fuel.left() < 1 {
            return Err(DeskNo::Spent);
        }
        Ok(())
    }

    /// What the job's own changes say of a path.
    pub(crate) fn own(&self, p: &Path) -> Option<&Option<Node>>
        ensures { option_copied result ≡ map.get self.now.work.changes p.now }
    {
        self.changes.get(p)
    }

    /// The number of the next change, which the nodes that it makes get as their stamp.
    pub(crate) fn number(&self) -> u64
        ensures { result
            ≡ change_number self.now.work.base self.now.work.job (self.now.work.count + 1) }
    {
        self.base + u64::from(self.job) * 1_048_576 + (self.count + 1)
    }

    /// Makes the change, or none of it.
    pub(crate) fn change(
        &mut self,
        p: Path,
        node: Option<Node>,
        above: Option<Path>,
    ) -> Result<(), DeskNo>
        requires apart { IfSome above (λ q. p ≢ q) }
        requires room { self.old.work.count + 1 + self.old.work.fuel ≤ self.old.work.given }
        requires fits { Fits self.old.usage (after_change p node above self.old.work).changes }
        requires paths { NamesPaths (after_change p node above self.old.work).changes }
        ensures ok { OnOk result
            (self.new ≡ record self.old { work = after_change p node above self.old.work }) }
        ensures err { OnErr result (self.new ≡ self.old) }
        ensures only { IfErr result (λ e. e ≡ no.NoMemory) }
    {
        let stamp = self.number();
        match above {
            None => self.changes.set(p, node)?,
            Some(q) => self
                .changes
                .set_both(p, node, q, Some(Node::Dir { stamp }))?,
        }
        self.count += 1;
        Ok(())
    }

    /// Asks, and keeps the answer.
    pub(crate) fn ask(&mut self, question: Question) -> Result<Answer, DeskNo>
        ensures performs { Acts V.tells self.old self.new result (ask question) }
        ensures only { IfErr result (λ e. e ≡ no.NoMemory) }
        ensures still { self.new.work ≡ record self.old.work { asked = self.new.work.asked } }
    {
        ask_view(self.alloc, &mut self.view, &mut self.usage, question)
    }
}
