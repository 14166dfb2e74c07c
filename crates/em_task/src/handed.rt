//! Which variables a job's shell gets, and where they stand.
ghost use Rattle.std.specs.Prelude.{◌≡◌, false, slice_get, IfOk, MatchOption};
ghost use Rattle.em_task.specs.Handed as specs;

use em_base::{NoMemory, Seq};
use em_vars::{Origin, Var, Vars};
use std::alloc::Global;

/// Whether a variable of this origin is of the command line.
pub fn is_of_order(origin: Origin) -> bool
    ensures { result ≡ specs.is_of_order origin }
{
    matches!(origin, Origin::CommandLine)
}

/// Whether a job's shell gets the variable: it is of the command line, or exported.
pub fn is_handed(var: &Var) -> bool
    ensures { result ≡ specs.is_handed var.now }
{
    var.exported || is_of_order(var.origin)
}

/// Whether it gets the i-th variable; it doesn't where there is none.
fn is_handed_at(vars: &Vars, i: usize) -> bool
    ensures { MatchOption (slice_get vars.now i) (result ≡ false)
        (λ e. result ≡ specs.is_handed e.1) }
{
    match vars.at(i) {
        Some((_, var)) => is_handed(var),
        None => false,
    }
}

/// The places of the variables that a job's shell gets, in order. One walk over all variables.
pub(crate) fn handed_places(alloc: Global, vars: &Vars) -> Result<Seq<usize>, NoMemory>
    ensures { IfOk result (λ places. places ≡ specs.handed_places vars.now) }
{
    let mut places = Vec::new(alloc);
    for i in 0..vars.len() {
        if is_handed_at(vars, i) {
            places.push(i)?;
        }
    }
    Ok(Seq::from_vec(places))
}
