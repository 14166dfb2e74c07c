//! A job, as data.
ghost use Rattle.std.specs.Prelude.{◌≡◌, IfOk};
ghost use Rattle.em_task.specs.Endings as endings;

use crate::pairs::SharedPairs;
use crate::shared::SharedVars;
use em_base::{NoMemory, Seq, Text};
use em_cmdline::Order;
use em_path::Path;
use em_plan::SharedJob;
use em_tree::Outcome;
use std::alloc::Global;

/// What an order says of all jobs.
#[derive(Clone, Copy, Debug, PartialEq, Eq)]
pub struct Flags {
    /// `-k`
    pub keep_going: bool,
    /// `-n`
    pub dry: bool,
    /// `-q`
    pub question: bool,
    /// `-s`
    pub silent: bool,
    /// `-i`
    pub ignore: bool,
    /// `-B`
    pub always: bool,
}

impl Flags {
    /// What this order says of all jobs. One step.
    pub fn of_order(order: &Order) -> Flags
        ensures { result ≡ endings.flags_of order.now }
    {
        Flags {
            keep_going: order.keep_going,
            dry: order.dry,
            question: order.question,
            silent: order.silent,
            ignore: order.ignore,
            always: order.always,
        }
    }

    /// Whether a make with these flags ends after a job with this outcome: always after one that
    /// was refused or halted, or has spent its fuel; without `-k` after one that failed or has no
    /// rule; under `-q` after one whose target is to be made. One step.
    pub fn ends_after(self, outcome: &Outcome) -> bool
        ensures { result ≡ endings.ends_after self outcome.now }
    {
        match outcome {
            Outcome::Halted { .. } | Outcome::Refused { .. } | Outcome::Spent => true,
            Outcome::Failed(_) | Outcome::NoRule => !self.keep_going,
            Outcome::Made => self.question,
            Outcome::Upto | Outcome::Counted | Outcome::Skipped => false,
        }
    }
}

/// What there is to know of one job.
#[derive(Drop, PartialEq, Eq)]
pub struct Job {
    /// Its number in serial order.
    pub job: u32,
    /// The greatest stamp of the starting tree.
    pub base: u64,
    /// The units of fuel that it may use.
    pub fuel: u64,
    /// The working directory.
    pub cwd: Path,
    pub flags: Flags,
    /// Its lines aren't echoed: `-s`, or `.SILENT` covers the plan's target.
    pub quiet: bool,
    /// Failures of its lines are ignored: `-i`, or `.IGNORE` covers the plan's target.
    pub lenient: bool,
    /// `.DELETE_ON_ERROR`
    pub delete_on_error: bool,
    /// The phony names among the targets and the normal prerequisites.
    pub phony: Seq<Text>,
    pub plan: SharedJob,
    /// The makefile's variables.
    pub vars: SharedVars,
    /// What the command line assigns, also where a makefile overrides or undefines it.
    pub assigned: SharedPairs,
}

impl Job {
    /// An equal job. The variables and the job of the plan are shared.
    pub fn copy(&self, alloc: Global) -> Result<Job, NoMemory>
        ensures { IfOk result (λ j. j ≡ self.now) }
    {
        Ok(Job {
            job: self.job,
            base: self.base,
            fuel: self.fuel,
            cwd: self.cwd.copy()?,
            flags: self.flags,
            quiet: self.quiet,
            lenient: self.lenient,
            delete_on_error: self.delete_on_error,
            phony: self.phony.copy(alloc)?,
            plan: self.plan.copy()?,
            vars: self.vars.copy()?,
            assigned: self.assigned.copy()?,
        })
    }
}
