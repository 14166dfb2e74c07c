//! What a make within a make stands on: its makefiles and its plan.
ghost use Rattle.std.specs.Prelude.{◌≡◌, ◌≤◌, ◌++◌, true, length, Ok, IfOk};
ghost use Rattle.em_closing.specs.Refusals.{plan_line as plan_text};
ghost use Rattle.em_script.specs.Strands.{IsSent};
ghost use Rattle.em_submake.specs.Climbing.{IsFew};
ghost use Rattle.em_submake.specs.Submakes as submakes;
ghost use Rattle.em_submake.specs.declared.ground.Ground.TheVariants.{Planned, Ended};
ghost use Rattle.em_view.specs.Steps.{Does, Works};

use em_base::{NoMemory, Place, Text};
use em_closing::{fault_line, plan_line};
use em_exec::SubLine;
use em_plan::{Plan, PlanNo, plan_through};
use em_reader::read_through;
use em_reading::{MakefileFault, ReadNo};
use em_rules::Book;
use em_view::{Desk, View};
use std::alloc::Global;

/// What a line's make stands on.
#[derive(Drop)]
pub(crate) enum Ground {
    /// Its makefiles and its plan.
    Planned(Book, Plan),
    /// It has ended with this status: its makefiles can't be read, or it has no plan.
    Ended(u8),
    /// Reading or planning has spent the fuel.
    Spent,
}

/// A refusal is printed, and the make has status 2.
fn refuse(out: &mut Text, line: &[u8]) -> Result<Ground, NoMemory>
    ensures works { Works (λ e. true) out.old out.new result (λ s. Ok (Ended 2, s ++ line.now)) }
    ensures few { IfOk result IsFew }
{
    out.add(line)?;
    Ok(Ground::Ended(2))
}

/// What is said of a plan, and the plan.
fn planned(out: &mut Text, book: Book, plan: Plan) -> Result<Ground, NoMemory>
    requires { length plan.jobs ≤ 65536 }
    ensures works { Works (λ e. true) out.old out.new result
        (λ s. Ok (Planned book plan, s ++ plan.notes)) }
    ensures few { IfOk result IsFew }
{
    out.add(plan.notes.bytes())?;
    Ok(Ground::Planned(book, plan))
}

/// There is no plan for this reason, which is printed; `found` tells whether there was a makefile.
fn no_plan(alloc: Global, out: &mut Text, found: bool, no: PlanNo) -> Result<Ground, NoMemory>
    ensures works { Works (λ e. true) out.old out.new result
        (λ s. Ok (Ended 2, s ++ plan_text found no)) }
    ensures few { IfOk result IsFew }
{
    let text = plan_line(alloc, found, no)?;
    refuse(out, text.bytes())
}

/// Whether reading has spent the fuel.
fn is_spent(fault: &MakefileFault) -> bool
    ensures { result ≡ submakes.is_spent fault.now }
{
    matches!(fault, MakefileFault::Spent)
}

/// The makefiles can't be read for this reason, which is printed unless the fuel is spent.
fn unread(
    alloc: Global,
    out: &mut Text,
    place: &Place,
    fault: &MakefileFault,
) -> Result<Ground, NoMemory>
    ensures works { Works (λ e. true) out.old out.new result
        (λ s. Ok (submakes.unread_as fault.now, s ++ submakes.unread_line place.now fault.now)) }
    ensures few { IfOk result IsFew }
{
    if is_spent(fault) {
        return Ok(Ground::Spent);
    }
    let text = fault_line(alloc, place, fault)?;
    refuse(out, text.bytes())
}

/// The plan of the makefiles that were read, or why there is none.
fn plan_of<V: View>(
    alloc: Global,
    desk: &mut Desk<V>,
    out: &mut Text,
    line: &SubLine,
    book: Book,
) -> Result<Ground, NoMemory>
    ensures does { Does (λ e. true) V.tells desk.old desk.new out.old out.new result
        (submakes.by_book line.now (Ok book)) }
    ensures few { IfOk result IsFew }
{
    let goals = line.order.goals.items();
    match plan_through(alloc, &book, goals, desk, &line.shell.cwd) {
        Ok(plan) => planned(out, book, plan),
        Err(PlanNo::NoMemory) => Err(NoMemory),
        Err(PlanNo::Spent) => Ok(Ground::Spent),
        Err(PlanNo::NoTargets) => no_plan(alloc, out, book.found, PlanNo::NoTargets),
        Err(PlanNo::TooManyJobs) => no_plan(alloc, out, book.found, PlanNo::TooManyJobs),
    }
}

/// The makefiles and the plan of the make that the line begins, or why it has none of them.
pub(crate) fn ground_of<V: View>(
    alloc: Global,
    desk: &mut Desk<V>,
    out: &mut Text,
    line: &SubLine,
) -> Result<Ground, NoMemory>
    requires { IsSent line.now }
    ensures does { Does (λ e. true) V.tells desk.old desk.new out.old out.new result
        (submakes.ground_of line.now) }
    ensures few { IfOk result IsFew }
{
    match read_through(alloc, desk, &line.order, &line.shell.vars, out) {
        Ok(book) => plan_of(alloc, desk, out, line, book),
        Err(ReadNo::NoMemory) => Err(NoMemory),
        Err(ReadNo::At(place, fault)) => unread(alloc, out, &place, &fault),
    }
}
