//! Variables that jobs share.
ghost use Rattle.std.specs.Prelude.{◌≡◌, IfOk};
ghost use Rattle.std.specs.Cmp.{partial_equiv_from_equiv};
ghost use Rattle.em_task.specs.Handed as specs;
ghost use Rattle.em_vars.specs.contracts.vars.VarsPartialEq.TheImpl as vars_eq;
ghost use Rattle.em_vars.specs.contracts.vars.VarsEq.TheImpl.Laws as vars_eq_laws;

use crate::handed::handed_places;
use em_base::{NoMemory, Seq};
use em_vars::Vars;
use std::alloc::Global;
use std::marker::Model;
use std::sync::Arc;

/// Variables, with the places of those that a job's shell gets.
#[derive(Drop)]
struct Listed {
    vars: Vars,
    handed: Seq<usize>,
}

/// Variables that jobs share, in any threads. Contracts see the variables. Beside them a list is
/// kept of those that a job's shell gets, so that no job has to look for them among all.
#[derive(Drop)]
pub struct SharedVars {
    held: Arc<Listed, Global>,
}

impl Model for SharedVars {
    ghost use Rattle.em_vars.specs.Entries.{Entries};
    ghost use Rattle.std.specs.Prelude.{◌≡◌};
    ghost use Rattle.std.specs.Arc.{arc_value};
    ghost use Rattle.em_task.specs.Handed.{handed_places};

    ghost Value = { Entries };

    ghost view = { λ s. (arc_value s.held).vars };

    ghost invariant = { λ s. (arc_value s.held).handed
        ≡ handed_places (arc_value s.held).vars };
}

impl SharedVars {
    /// These variables, to be shared. One walk over them, for the list.
    pub fn new(alloc: Global, vars: Vars) -> Result<SharedVars, NoMemory>
        ensures { IfOk result (λ s. s ≡ vars) }
    {
        let handed = handed_places(alloc, &vars)?;
        let held = Arc::new(alloc, Listed { vars, handed })?;
        Ok(SharedVars { held })
    }

    /// The same variables once more. No byte is copied.
    pub fn copy(&self) -> Result<SharedVars, NoMemory>
        ensures { IfOk result (λ s. s ≡ self.now) }
    {
        let held = Arc::try_clone(&self.held)?;
        Ok(SharedVars { held })
    }

    /// The variables.
    pub fn vars(&self) -> &Vars
        ensures { result.now ≡ self.now }
    {
        &self.held.vars
    }

    /// The places, counted from 0, of the variables that a job's shell gets, in order. No walk.
    pub fn handed(&self) -> &[usize]
        ensures { result.now ≡ specs.handed_places self.now }
    {
        self.held.handed.items()
    }
}

impl PartialEq for SharedVars {
    ghost eq = { vars_eq.ghosts.eq };

    ghost laws = { partial_equiv_from_equiv vars_eq_laws.laws-law };

    fn eq(&self, other: &Self) -> bool {
        self.vars() == other.vars()
    }
}

impl Eq for SharedVars {
    ghost laws = { vars_eq_laws.laws-law };
}
