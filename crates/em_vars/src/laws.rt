//! Laws of the definitions: each function's contract is the law, and its body is empty.
ghost use Rattle.std.specs.Prelude.{◌≡◌, ◌↔◌, IsTrue, false, Option, ◌≢◌, ◌∷◌, ◌++◌, [], ℕ, List, IsSome, Some, None, map};
ghost use Rattle.std.specs.Map.{keys_of};
ghost use Rattle.em_vars.specs.declared.var.Var.{Var};
ghost use Rattle.em_vars.specs.Entries.{Entries, AreDistinct, value_of, keeps, with_value, without};

use crate::var::Origin;
use crate::vars::Vars;

/// `==` of variables is equality of their entries.
pub fn law_equal(a: &Vars, b: &Vars) -> bool
    ensures { IsTrue result ↔ (a.now ≡ b.now) }
{
    a == b
}

/// A variable of origin `Automatic` always takes effect.
pub fn law_automatic()
    ensures { (old : Option Var) (v : Var) → v.origin ≡ Origin.Automatic → keeps old v ≡ false }
{}

/// A name that is set has the new value, and every other name is as before.
pub fn law_set()
    ensures own { (es : Entries) (n : List ℕ) (v : Var) → value_of (with_value es n v) n ≡ Some v }
    ensures others { (es : Entries) (n m : List ℕ) (v : Var) → n ≢ m
        → value_of (with_value es n v) m ≡ value_of es m }
{}

/// The names stand in the order in which they were first defined.
pub fn law_order()
    ensures present { (es : Entries) (n : List ℕ) (v : Var) → IsSome (value_of es n)
        → keys_of (with_value es n v) ≡ keys_of es }
    ensures absent { (es : Entries) (n : List ℕ) (v : Var) → value_of es n ≡ None
        → keys_of (with_value es n v) ≡ keys_of es ++ n ∷ [] }
{}

/// A name that is undefined is gone, and every other name is as before.
pub fn law_undefine()
    ensures own { (es : Entries) (n : List ℕ) → value_of (without es n) n ≡ None }
    ensures others { (es : Entries) (n m : List ℕ) → n ≢ m
        → value_of (without es n) m ≡ value_of es m }
{}

/// Each name stands once, also after these changes.
pub fn law_distinct()
    ensures set { (es : Entries) (n : List ℕ) (v : Var) → AreDistinct es
        → AreDistinct (with_value es n v) }
    ensures undefined { (es : Entries) (n : List ℕ) → AreDistinct es → AreDistinct (without es n) }
{}
