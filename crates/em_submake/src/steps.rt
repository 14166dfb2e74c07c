//! Jobs that pause, and who makes them.
ghost use Rattle.std.specs.Prelude.{◌≡◌, ◌<◌, ℕ, List, length, IfOk};
ghost use Rattle.em_exec.specs.declared.turn.SubLine.{SubLine as Sent};
ghost use Rattle.em_plan.specs.declared.planned.Plan.{Plan as Planned};
ghost use Rattle.em_rules.specs.declared.book.Book.{Book as Makefile};
ghost use Rattle.em_script.specs.Strands.{Back, Status, Spent, Plot, IfSub, IsSent, Turned};
ghost use Rattle.em_tree.specs.declared.outcome.Outcome.{Outcome as Ending};

use em_base::{NoMemory, Seq, Text};
use em_exec::{SubLine, Turn};
use em_plan::Plan;
use em_rules::Book;
use em_task::SharedVars;
use em_tree::Outcome;
use em_view::{Desk, View};
use std::alloc::Global;

/// A job that pauses at each line that begins a make within a make.
pub trait Steps: Drop {
    /// What is left of it.
    ghost plot: { Self → Plot };

    /// What is left of one that pauses, by how the make of its line has ended.
    ghost back: { Self → Back → Plot };

    /// Runs up to the next such line or to the job's end, and appends to `out` what the job says.
    /// No unit of fuel comes back, and up to such a line at least one is gone. The line's make
    /// works in the directory that its order names. `NoMemory` may come freely; what was done till
    /// then stands, and what `out` holds then no clause tells.
    fn step<V: View>(
        &mut self,
        alloc: Global,
        desk: &mut Desk<V>,
        out: &mut Text,
    ) -> Result<Turn, NoMemory>
        ensures turned { Turned V.tells desk.old desk.new out.old out.new result (plot self.old)
            (back self.new) }
        ensures sent { IfSub result IsSent }
        ensures burns { IfSub result (λ l. desk.new.work.fuel < desk.old.work.fuel) };

    /// Tells it that the make of its line has ended with this status.
    fn resume(&mut self, status: u8)
        ensures { plot self.new ≡ back self.old (Status status) };

    /// Tells it that the make of its line has spent the fuel in reading or in planning.
    fn spent(&mut self)
        ensures { plot self.new ≡ back self.old Spent };
}

/// Who makes the jobs of a line's make.
pub trait Maker<J: Steps>: Drop {
    /// What the job of this number does, if these outcomes are known to it.
    ghost job_of: { Self → Sent → Planned → ℕ → Makefile → List Ending → Plot };

    /// The job of this number in the plan, with the outcomes for which it asks. The variables are
    /// the book's, shared by the jobs of a make. `NoMemory` alone is an error, and may come freely.
    fn job(
        &self,
        alloc: Global,
        line: &SubLine,
        plan: &Plan,
        number: u32,
        book: &Book,
        vars: &SharedVars,
        known: Seq<Outcome>,
    ) -> Result<J, NoMemory>
        requires number { number < length plan.now.jobs }
        requires vars { vars.now ≡ book.now.vars }
        requires sent { IsSent line.now }
        ensures { IfOk result
            (λ j. J.plot j ≡ job_of self.now line.now plan.now number book.now known) };
}
