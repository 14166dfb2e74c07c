//! Laws of the definitions: each function's contract is the law, and its body is empty but where it
//! cites another law.
ghost use Rattle.em_nesting.specs.Nested.{MakesAll};
ghost use Rattle.em_run.specs.Serial.{IsOne};

use em_submake::laws::law_one_end;

/// A job makes one thing of a state at most, with all makes within it.
pub fn law_one_effect()
    ensures { IsOne MakesAll }
{
    law_one_end();
}
