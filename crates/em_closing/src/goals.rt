//! The goals by their names.
ghost use Rattle.std.specs.Prelude.{◌≡◌, IfOk};
ghost use Rattle.em_closing.specs.Closing as closing;

use em_base::{NoMemory, Seq, Text};
use em_plan::goal_names;
use em_rules::Book;
use std::alloc::Global;

/// A goal: what is said of it at the end names it, also where a job of it has another name for its
/// trigger.
#[derive(Debug, Drop, PartialEq, Eq)]
pub struct Goal {
    pub name: Text,
    /// Whether the name itself is phony.
    pub phony: bool,
}

/// The goals of a plan of the book, in its order, where these are asked for. One search for each.
pub fn goals_of(alloc: Global, book: &Book, asked: &[Text]) -> Result<Seq<Goal>, NoMemory>
    ensures { IfOk result (λ goals. goals ≡ closing.goals_of book.now asked.now) }
{
    let mut goals = Seq::new(alloc);
    for name in goal_names(alloc, asked, &book.default_goal)?.into_vec() {
        let phony = book.rules.is_phony(name.bytes());
        goals.push(Goal { name, phony })?;
    }
    Ok(goals)
}
