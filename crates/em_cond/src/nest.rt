//! Conditionals within one another.
ghost use Rattle.std.specs.Prelude.{◌≡◌, ◌==◌, ◌+◌, ◌∷◌, [], not, count_by, if◌then◌else◌, length, None, Some, IfErr, MatchResult, OnErr, OnOk};
ghost use Rattle.em_cond.specs.Nests as nests;
ghost use Rattle.em_cond.specs.Nests.{entered, after_other, after_leave, is_active, is_taken, is_waiting, may_turn};

use crate::no::CondNo;
use em_base::Stack;
use std::alloc::Global;
use std::marker::Model;

/// How far an open conditional is.
#[derive(Clone, Copy, Debug, PartialEq, Eq)]
pub enum Branch {
    /// No condition has held so far.
    Before,
    /// The present branch is the first whose condition holds: it is the one that is read.
    Taken,
    /// A branch in front of the present one was read.
    Behind,
}

/// An open conditional.
#[derive(Clone, Copy, Debug, PartialEq, Eq)]
pub struct Conditional {
    pub branch: Branch,
    /// Whether its plain `else` has come.
    pub closed: bool,
}

/// The conditionals that are open. Contracts see their list, the innermost first. Each call takes
/// one step, and `enter` one more for each open conditional where it needs memory.
#[derive(Debug, Drop)]
pub struct Nest {
    open: Stack<Conditional>,
    /// How many of them are in a branch that isn't read.
    off: usize,
}

impl Model for Nest {
    ghost use Rattle.std.specs.Prelude.{◌≡◌, List, not, count_by};
    ghost use Rattle.std.specs.Coded.{coded_list};
    ghost use Rattle.em_cond.specs.declared.nest.Conditional.{Conditional};
    ghost use Rattle.em_cond.specs.contracts.nest.Conditional as conditional;
    ghost use Rattle.em_cond.specs.Nests.{is_taken};

    ghost Value = { List Conditional };

    ghost coded = { coded_list conditional.the_row.coded };

    ghost view = { λ n. n.open };

    ghost invariant = { λ n. n.off ≡ count_by (λ k. not (is_taken k.branch)) n.open };
}

impl Branch {
    /// How far the conditional is with one branch more.
    fn next(self, holds: bool) -> Branch
        ensures { result ≡ nests.next_branch self holds }
    {
        match (self, holds) {
            (Branch::Before, true) => Branch::Taken,
            (Branch::Before, false) => Branch::Before,
            _ => Branch::Behind,
        }
    }

    /// Whether the present branch isn't the one that is read, as a number to count by.
    fn off(self) -> usize
        ensures { result ≡ (if is_taken self then 0 else 1) }
    {
        match self {
            Branch::Taken => 0,
            _ => 1,
        }
    }
}

impl Conditional {
    /// Whether a further branch can be the one that is read.
    fn is_waiting(&self) -> bool
        ensures { result ≡ is_waiting self.now }
    {
        !self.closed && self.branch == Branch::Before
    }
}

impl Nest {
    /// No conditional is open.
    pub fn new(alloc: Global) -> Nest
        ensures { result ≡ [] }
    {
        Nest {
            open: Stack::new(alloc),
            off: 0,
        }
    }

    /// Opens a conditional (`ifeq`, `ifneq`, `ifdef`, `ifndef`) whose condition holds or doesn't.
    /// The only error is `NoMemory`, and then the nest is as before.
    pub fn enter(&mut self, holds: bool) -> Result<(), CondNo>
        ensures ok { OnOk result (self.new ≡ entered holds ∷ self.old) }
        ensures err { OnErr result (self.new ≡ self.old) }
        ensures only { IfErr result (λ e. e ≡ CondNo.NoMemory) }
    {
        let branch = Branch::Before.next(holds);
        self.open.push(Conditional {
            branch,
            closed: false,
        })?;
        let _room = self.open.len();
        self.off += branch.off();
        Ok(())
    }

    /// Goes on to the next branch of the innermost conditional: that of an `else` with a condition
    /// that holds or doesn't, or, for `None`, of a plain `else`. `Unbalanced` comes exactly where
    /// no conditional is open or a plain `else` came before; the nest is then as before. Takes no
    /// memory.
    pub fn other(&mut self, condition: Option<bool>) -> Result<(), CondNo>
        ensures { MatchResult result
            (λ _. after_other condition self.old ≡ Some self.new)
            (λ e. (e ≡ CondNo.Unbalanced) × (after_other condition self.old ≡ None)
            × (self.new ≡ self.old)) }
    {
        let Some(top) = self.open.top().copied() else {
            return Err(CondNo::Unbalanced);
        };
        if top.closed {
            return Err(CondNo::Unbalanced);
        }
        let branch = top.branch.next(condition.unwrap_or(true));
        let closed = condition.is_none();
        let _room = self.open.len();
        let _ = self.open.replace_top(Conditional { branch, closed });
        self.off = self.off - top.branch.off() + branch.off();
        Ok(())
    }

    /// Closes the innermost conditional (`endif`). `Unbalanced` comes exactly where none is open;
    /// the nest is then as before. Takes no memory.
    pub fn leave(&mut self) -> Result<(), CondNo>
        ensures { MatchResult result
            (λ _. after_leave self.old ≡ Some self.new)
            (λ e. (e ≡ CondNo.Unbalanced) × (after_leave self.old ≡ None) × (self.new ≡ self.old)) }
    {
        let Some(top) = self.open.pop() else {
            return Err(CondNo::Unbalanced);
        };
        self.off -= top.branch.off();
        Ok(())
    }

    /// Whether a further branch of the innermost conditional, if its condition holds, would be
    /// read: no branch of it was read and no plain `else` has come, and the conditionals round it
    /// are read. Elsewhere its condition can't matter. One step.
    pub fn may_turn(&self) -> bool
        ensures { result ≡ may_turn self.now }
    {
        match self.open.top() {
            None => false,
            Some(top) => top.is_waiting() && self.off == 1,
        }
    }

    /// Whether lines are read: in each open conditional the present branch is the first whose
    /// condition holds, where a plain `else` counts as one that holds. One step, however many are
    /// open.
    pub fn active(&self) -> bool
        ensures { result ≡ is_active self.now }
    {
        self.off == 0
    }
}
