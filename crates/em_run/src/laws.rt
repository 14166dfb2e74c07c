//! A law of the definitions: its contract is the law, and its body is empty.
ghost use Rattle.std.specs.Prelude.{◌≡◌, List};
ghost use Rattle.em_run.specs.Serial.{Made, IsSerial, IsOne};
ghost use Rattle.em_tree.specs.declared.state.State.{State};

use crate::spec::Spec;

/// Where each job makes one thing of a state at most, there is one serial run at most.
pub fn law_one_run<S: Spec>()
    ensures { IsOne S.makes → (start : State) (jobs : List S) (a b : List Made)
        → IsSerial S.makes S.ends_after start jobs a → IsSerial S.makes S.ends_after start jobs b
        → a ≡ b }
{}
