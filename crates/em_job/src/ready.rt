//! The lines of a recipe, read by the shell's grammar.
ghost use Rattle.std.specs.Prelude.{IfOk};
ghost use Rattle.em_job.specs.Carrying.{AreRead, IsReadAs};

use crate::prepare::{Placed, Prepared, RecipeStart};
use crate::stop::JobStop;
use em_base::{NoMemory, Seq};
use em_script::ShellLine;
use em_tree::Outcome;
use std::alloc::Global;

/// A line for the shell, and what it is by the grammar.
#[derive(Drop)]
pub struct ParsedLine {
    pub placed: Placed,
    pub line: ShellLine,
}

/// What is left to do of a job, with each line read.
#[derive(Drop)]
pub(crate) enum Course {
    Ended(Outcome),
    Run(RecipeStart, Seq<ParsedLine>),
}

/// Reads the lines by the shell's grammar; a line with a fault is kept as such. `NoMemory` alone is
/// an error, and may come freely. The time is linear in the lines' length; no text is copied.
pub fn read_lines(alloc: Global, lines: Seq<Placed>) -> Result<Seq<ParsedLine>, NoMemory>
    ensures { IfOk result (λ rs. AreRead lines rs) }
{
    let mut ready = Seq::new(alloc);
    for placed in lines.into_vec() {
        let line = ShellLine::read(alloc, placed.command.text.bytes())?;
        ready.push(ParsedLine { placed, line })?;
    }
    Ok(ready)
}

/// Reads what is to run.
pub(crate) fn read(
    alloc: Global,
    prepared: Result<Prepared, JobStop>,
) -> Result<Result<Course, JobStop>, NoMemory>
    ensures { IfOk result (λ c. IsReadAs prepared c) }
{
    match prepared {
        Ok(Prepared::Ended(outcome)) => Ok(Ok(Course::Ended(outcome))),
        Ok(Prepared::Lines(opened, lines)) => {
            let ready = read_lines(alloc, lines)?;
            Ok(Ok(Course::Run(opened, ready)))
        }
        Err(stop) => Ok(Err(stop)),
    }
}
