//! The goals.
ghost use Rattle.std.specs.Prelude.{◌≡◌, [], ℕ, List, map, IfOk, OnOk, is_some};
ghost use Rattle.std.specs.FinMap as finmap;
ghost use Rattle.em_plan.specs.Once.{each_once, is_among, once_more};
ghost use Rattle.em_plan.specs.Plans.{asked};
ghost use Rattle.em_plan.specs.Resuming.{numbers_in};

use crate::marks::{VisitMark, numbers_of};
use crate::numbers::Numbers;
use em_base::{NoMemory, Seq, Table, Text};
use em_rules::undotted;
use std::alloc::Global;

/// The goals that are given, or else the default goal.
pub(crate) fn asked<'a>(goals: &'a [Text], default_goal: &'a Option<Text>) -> &'a [Text]
    ensures { result.now ≡ asked goals.now default_goal.now }
{
    if goals.is_empty() {
        return default_goal.as_slice();
    }
    goals
}

/// The name at the end, unless it is there. The table has the names that are there.
fn add_once(
    alloc: Global,
    names: &mut Seq<Text>,
    there: &mut Table<()>,
    name: &[u8],
) -> Result<(), NoMemory>
    requires { (q : List ℕ) → is_some (finmap.get there.old q) ≡ is_among names.old q }
    ensures there { OnOk result
        ((q : List ℕ) → is_some (finmap.get there.new q) ≡ is_among names.new q) }
    ensures names { OnOk result (names.new ≡ once_more names.old name.now) }
{
    if there.get(name).is_some() {
        return Ok(());
    }
    there.insert(Text::from_slice(alloc, name)?, ())?;
    names.push(Text::from_slice(alloc, name)?)?;
    Ok(())
}

/// The names without the `./` that they begin with, each where it first stands. One search for
/// each.
pub(crate) fn each_once(alloc: Global, goals: &[Text]) -> Result<Seq<Text>, NoMemory>
    ensures { IfOk result (λ ns. ns ≡ each_once [] goals.now) }
{
    let mut names = Seq::new(alloc);
    let mut there = Table::new(alloc);
    for goal in goals {
        add_once(alloc, &mut names, &mut there, undotted(goal.bytes()))?;
    }
    Ok(names)
}

/// The names of a plan's goals, in its order: of the goals that are given, or else of the default
/// goal. One search for each.
pub fn goal_names(
    alloc: Global,
    goals: &[Text],
    default_goal: &Option<Text>,
) -> Result<Seq<Text>, NoMemory>
    ensures { IfOk result (λ ns. ns ≡ each_once [] (asked goals.now default_goal.now)) }
{
    each_once(alloc, asked(goals, default_goal))
}

/// The numbers of each name's jobs.
pub(crate) fn numbers(
    alloc: Global,
    marks: &Table<VisitMark>,
    names: &[Text],
) -> Result<Seq<Numbers>, NoMemory>
    ensures { IfOk result (λ ns. ns ≡ map (numbers_in marks.now) names.now) }
{
    let mut all = Seq::new(alloc);
    for name in names {
        all.push(numbers_of(alloc, marks, name.bytes())?)?;
    }
    Ok(all)
}
