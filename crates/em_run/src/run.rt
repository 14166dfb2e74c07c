//! What was recorded of a job's run.
ghost use Rattle.std.specs.Prelude.{◌≡◌};
ghost use Rattle.em_run.specs.Runs.{IsValid};

use crate::spec::Spec;
use em_base::Text;
use em_tree::{Delta, Outcome, Usage};
use std::marker::Model;

/// What a run holds.
#[derive(Drop)]
pub struct Parts<S> {
    /// What the job was asked to do.
    pub spec: S,
    /// What it asked and was answered, in order.
    pub usage: Usage,
    /// What it changed.
    pub delta: Delta,
    /// What it said.
    pub output: Text,
    /// How it ended.
    pub outcome: Outcome,
    /// How much fuel it took.
    pub fuel: u64,
}

/// A valid run. On each state that agrees with every entry of its usage, its spec may have this
/// delta, output and outcome as its effect and use this fuel, and the delta laid over the state's
/// tree gives a tree. Contracts see the parts.
#[derive(Drop)]
pub struct Run<S: Spec> {
    parts: Parts<S>,
}

impl<S: Spec> Model for Run<S> {
    ghost use Rattle.em_run.specs.declared.run.Parts.{Parts};
    ghost use Rattle.em_run.specs.Codes.{parts_code};
    ghost use Rattle.em_run.specs.Runs.{IsValid};

    ghost Value = { Parts S };

    ghost coded = { parts_code S.code };

    ghost view = { λ r. r.parts };

    ghost invariant = { λ r. IsValid S.makes r.parts };
}

impl<S: Spec> Run<S> {
    /// A valid run with these parts. It takes no memory.
    pub fn new(
        spec: S,
        usage: Usage,
        delta: Delta,
        output: Text,
        outcome: Outcome,
        fuel: u64,
    ) -> Run<S>
        requires { IsValid S.makes
            (record {
              spec = spec;
              usage = usage;
              delta = delta;
              output = output;
              outcome = outcome;
              fuel = fuel;
            }) }
        ensures { result
            ≡ record {
              spec = spec;
              usage = usage;
              delta = delta;
              output = output;
              outcome = outcome;
              fuel = fuel;
            } }
    {
        Run {
            parts: Parts {
                spec,
                usage,
                delta,
                output,
                outcome,
                fuel,
            },
        }
    }

    /// What the job was asked to do.
    pub fn spec(&self) -> &S
        ensures { result.now ≡ self.now.spec }
    {
        &self.parts.spec
    }

    /// What it asked and was answered, in order.
    pub fn usage(&self) -> &Usage
        ensures { result.now ≡ self.now.usage }
    {
        &self.parts.usage
    }

    /// What it changed.
    pub fn delta(&self) -> &Delta
        ensures { result.now ≡ self.now.delta }
    {
        &self.parts.delta
    }

    /// What it said.
    pub fn output(&self) -> &Text
        ensures { result.now ≡ self.now.output }
    {
        &self.parts.output
    }

    /// How it ended.
    pub fn outcome(&self) -> &Outcome
        ensures { result.now ≡ self.now.outcome }
    {
        &self.parts.outcome
    }

    /// How much fuel it took.
    pub fn fuel(&self) -> u64
        ensures { result ≡ self.now.fuel }
    {
        self.parts.fuel
    }

    /// Hands out that the run is valid, and does nothing.
    pub fn valid(&self)
        ensures { IsValid S.makes self.now }
    {
        let _ = &self.parts;
    }

    /// What it holds. It takes no memory.
    pub fn into_parts(self) -> Parts<S>
        ensures parts { result ≡ self }
        ensures valid { IsValid S.makes self }
    {
        let Run { parts } = self;
        parts
    }
}
