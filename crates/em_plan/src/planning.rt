//! The plan.
ghost use Rattle.std.specs.Prelude.{◌≡◌, ◌≤◌, ◌⊎◌, ◌↔◌, [], Ok, Err, None, IfOk, IfErr, length};
ghost use Rattle.em_view.specs.Performs.{Performs};
ghost use Rattle.em_plan.specs.Order.{limit};
ghost use Rattle.em_plan.specs.Plans.{plan_of};
ghost use Rattle.em_plan.specs.Walking.{is_want, plan_asking, planned_through, Comes};

use crate::goals::{asked, each_once, numbers};
use crate::making::RuleContext;
use crate::no::PlanNo;
use crate::planned::Plan;
use crate::walk::{Walk, walk_all};
use em_base::Text;
use em_implicit::{OnTree, There};
use em_path::Path;
use em_rules::Book;
use em_tree::Tree;
use em_view::{Desk, View};
use std::alloc::Global;

/// The plan for these goals, as `plan` and `plan_through` say, by the answers of whoever is asked.
fn plan_by<T: There>(
    alloc: Global,
    book: &Book,
    goals: &[Text],
    cwd: &Path,
    there: &mut T,
) -> Result<Plan, PlanNo>
    ensures asked { Comes T.asks there.old there.new result
        (plan_asking book.now goals.now cwd.now) }
    ensures few { IfOk result (λ p. length p.jobs ≤ limit) }
    ensures no_targets { (result ≡ Err PlanNo.NoTargets)
        ↔ ((goals.now ≡ []) × (book.now.default_goal ≡ None)) }
{
    let goals = asked(goals, &book.default_goal);
    if goals.is_empty() {
        return Err(PlanNo::NoTargets);
    }
    let names = each_once(alloc, goals)?;
    let Walk {
        begun: _,
        marks,
        walked,
    } = walk_all(alloc, RuleContext { book, cwd }, names.items(), there)?;
    let goals = numbers(alloc, &marks, names.items())?;
    Ok(Plan {
        jobs: walked.jobs,
        goals,
        notes: walked.notes,
    })
}

/// The plan for these goals, or for the default goal where none is given: a job for each unit that
/// they reach, in serial order. A unit is a name, the members of a group, or what one double-colon
/// rule of a name makes. Whether a name exists is judged by the tree, names being read
/// against the working directory.
///
/// `NoTargets` comes exactly where no goal is given and the book has no default goal, also where
/// memory is short. `TooManyJobs` comes exactly where more than 65,536 units are reached.
///
/// A few searches by name for each name that is reached and for each of its prerequisites, and
/// `find` for each name that isn't phony and has no recipe. The units that are open lie on a stack
/// of their own, which the limit alone bounds. A prerequisite's name is copied once (four times
/// where a pattern rule makes it) and once for each unit that it has, a job's targets a few times,
/// its recipe once, and the name that needs it once. Of n double-colon rules of one name each waits
/// for all before it, so that their waits are n n / 2 numbers.
pub fn plan(
    alloc: Global,
    book: &Book,
    goals: &[Text],
    tree: &Tree,
    cwd: &Path,
) -> Result<Plan, PlanNo>
    ensures ok { IfOk result (λ p. plan_of book.now goals.now tree.now cwd.now ≡ Ok p) }
    ensures err { IfErr result
        (λ e. (e ≡ PlanNo.NoMemory) ⊎ (plan_of book.now goals.now tree.now cwd.now ≡ Err e)) }
    ensures no_targets { (result ≡ Err PlanNo.NoTargets)
        ↔ ((goals.now ≡ []) × (book.now.default_goal ≡ None)) }
    ensures unspent { (result ≡ Err PlanNo.Spent) → ⊥ }
{
    let mut there = OnTree { tree };
    plan_by(alloc, book, goals, cwd, &mut there)
}

/// The plan for these goals, as `plan` says, in what a desk sees. The walk comes to the goals from
/// left to right, and from each to its prerequisites in the order in which they are visited, a
/// unit's before the unit itself. Where it comes to a name that has no job yet and isn't open, has
/// no recipe and no double-colon rules, and isn't phony, the questions of `find_through` are asked
/// for the name, and nothing else is asked anywhere. They are asked once for each such name, before
/// it is seen whether one more job is too many. The answers need not fit together.
///
/// `Spent` comes exactly where the desk answers it. `NoTargets` comes exactly where no goal is
/// given and the book has no default goal, also where memory is short, and then nothing is asked;
/// `TooManyJobs` exactly where more than 65,536 units are reached by these answers. Each question
/// costs what the desk takes for it, and else this costs what `plan` does.
pub fn plan_through<V: View>(
    alloc: Global,
    book: &Book,
    goals: &[Text],
    desk: &mut Desk<V>,
    cwd: &Path,
) -> Result<Plan, PlanNo>
    ensures performs { Performs is_want V.tells desk.old desk.new result
        (planned_through book.now goals.now cwd.now) }
    ensures few { IfOk result (λ p. length p.jobs ≤ limit) }
    ensures no_targets { (result ≡ Err PlanNo.NoTargets)
        ↔ ((goals.now ≡ []) × (book.now.default_goal ≡ None)) }
{
    plan_by(alloc, book, goals, cwd, desk)
}
