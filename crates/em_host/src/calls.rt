//! The calls on a host over memory.
ghost use Rattle.std.specs.Prelude.{◌≡◌, ◌↔◌, ◌<◌, ◌+◌, ◌-◌, ◌^◌, ◌++◌, ◌∷◌, [], min, true, Ok, Contains, IsTrue, IfOk, IfErr, OnOk, OnErr, is_ok, is_err, length, vec_len, vec_capacity};
ghost use Rattle.em_host.specs.Faults.{count_after, next_count};

use crate::call::{Call, Called};
use crate::faults::faults_after;
use crate::no::HostNo;
use em_base::NoMemory;

/// The calls so far, and which are to fail.
#[derive(Drop)]
pub(crate) struct Calls {
    /// Those that were noted, in order.
    pub(crate) noted: Vec<Called>,
    /// How many there was no memory to note, up to 2^64 - 1.
    pub(crate) lost: u64,
    /// The numbers of those that are to fail.
    pub(crate) failing: Vec<u64>,
    /// How many answered `Failed`, up to 2^64 - 1.
    pub(crate) faults: u64,
    /// Whether the last one answered an error.
    pub(crate) failed: bool,
}

/// A call that may now act.
#[derive(Drop)]
pub(crate) struct Begun {
    pub(crate) call: Call,
    /// Whether it is to fail.
    pub(crate) fails: bool,
}

impl Calls {
    /// Whether the next call is to fail.
    fn is_next_chosen(&self) -> bool
        ensures { IsTrue result
            ↔ Contains self.now.failing.items
            (min (length self.now.noted.items + self.now.lost) (2 ^ 64 - 1)) }
    {
        let number = (self.noted.as_slice().len() as u64).saturating_add(self.lost);
        self.failing.contains(&number)
    }

    /// Makes room to note a call. Where there is no memory for that, the call is lost.
    pub(crate) fn begin(&mut self, call: Result<Call, NoMemory>) -> Result<Begun, HostNo>
        ensures call { IfOk result (λ begun. call ≡ Ok begun.call) }
        ensures chosen { IfOk result (λ begun.
            IsTrue begun.fails
            ↔ Contains self.old.failing.items
            (min (length self.old.noted.items + self.old.lost) (2 ^ 64 - 1))) }
        ensures memory { IfErr result (λ e. e ≡ HostNo.NoMemory) }
        ensures noted { self.new.noted.items ≡ self.old.noted.items }
        ensures room { OnOk result (vec_len self.new.noted < vec_capacity self.new.noted) }
        ensures ok { OnOk result (self.new ≡ record self.old { noted = self.new.noted }) }
        ensures lost { OnErr result
            (self.new
            ≡ record self.old {
              noted = self.new.noted;
              lost = next_count self.old.lost;
              failed = true;
            }) }
    {
        let fails = self.is_next_chosen();
        if let Ok(call) = call {
            if self.noted.reserve(1).is_ok() {
                return Ok(Begun { call, fails });
            }
        }
        self.lost = self.lost.saturating_add(1);
        self.failed = true;
        Err(HostNo::NoMemory)
    }

    /// Notes a call with its answer.
    pub(crate) fn end<T>(&mut self, call: Call, answer: &Result<T, HostNo>)
        requires room { vec_len self.old.noted < vec_capacity self.old.noted }
        ensures noted { self.new.noted.items
            ≡ self.old.noted.items ++ record { call = call; ok = is_ok answer.now } ∷ [] }
        ensures rest { self.new
            ≡ record self.old {
              noted = self.new.noted;
              faults = count_after answer.now self.old.faults;
              failed = is_err answer.now;
            } }
    {
        let ok = answer.is_ok();
        let _ = self.noted.push(Called { call, ok });
        self.faults = faults_after(self.faults, answer);
        self.failed = !ok;
    }
}
