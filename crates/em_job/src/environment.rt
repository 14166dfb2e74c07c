//! The variables with which the shells of a job's lines start.
ghost use Rattle.std.specs.Prelude.{◌≡◌, slice_get, OnOk};
ghost use Rattle.em_job.specs.Stops.{is_free};
ghost use Rattle.em_job.specs.Carrying as carrying;
ghost use Rattle.em_view.specs.Steps.{Does};

use crate::prepare::expand_at;
use crate::stop::JobStop;
use em_base::{NoMemory, Place, Text};
use em_expand::{OwnVar, Spoken, own_text};
use em_task::{Job, is_handed, is_of_order};
use em_vars::{Flavour, Var, Vars};
use em_view::{Desk, View};
use std::alloc::Global;

/// Whether its text is expanded for the shell.
fn is_expanded(var: &Var) -> bool
    ensures { result ≡ carrying.is_expanded var.now }
{
    matches!(var.flavour, Flavour::Recursive) && !is_of_order(var.origin)
}

/// The variable's text, expanded where it is recursive.
fn handed_text<V: View>(
    alloc: Global,
    desk: &mut Desk<V>,
    spoken: &mut Spoken,
    job: &Job,
    autos: &[OwnVar],
    place: &Place,
    var: &Var,
) -> Result<Text, JobStop>
    ensures { Does is_free V.tells desk.old desk.new spoken.old spoken.new result
        (carrying.handed_text job.now autos.now place.now var.now) }
{
    if is_expanded(var) {
        return expand_at(alloc, desk, spoken, job, autos, place, var.text.bytes());
    }
    Ok(var.text.copy(alloc)?)
}

/// Gives the shell the variable with this text.
fn put(alloc: Global, env: &mut Vars, name: &[u8], var: &Var, text: Text) -> Result<(), NoMemory>
    ensures { OnOk result
        (env.new ≡ carrying.put env.old name.now (carrying.simple var.now text)) }
{
    let var = Var {
        flavour: Flavour::Simple,
        origin: var.origin,
        text,
        exported: var.exported,
    };
    env.set(Text::from_slice(alloc, name)?, var)?;
    Ok(())
}

/// Whether a shell gets a variable of makefiles: an automatic one of its name hides it.
fn is_given(autos: &[OwnVar], name: &[u8], var: &Var) -> bool
    ensures { result ≡ carrying.is_given autos.now name.now var.now }
{
    is_handed(var) && own_text(autos, name).is_none()
}

/// The shell's variables with this one, where the shell gets it.
fn hand<V: View>(
    alloc: Global,
    desk: &mut Desk<V>,
    spoken: &mut Spoken,
    job: &Job,
    autos: &[OwnVar],
    place: &Place,
    env: Vars,
    name: &[u8],
    var: &Var,
) -> Result<Vars, JobStop>
    ensures { Does is_free V.tells desk.old desk.new spoken.old spoken.new result
        (carrying.hand job.now autos.now place.now env name.now var.now) }
{
    if !is_given(autos, name, var) {
        return Ok(env);
    }
    let mut env = env;
    let text = handed_text(alloc, desk, spoken, job, autos, place, var)?;
    put(alloc, &mut env, name, var, text)?;
    Ok(env)
}

/// The same for the variable of this number; nothing is handed over where there is none.
fn hand_entry<V: View>(
    alloc: Global,
    desk: &mut Desk<V>,
    spoken: &mut Spoken,
    job: &Job,
    autos: &[OwnVar],
    place: &Place,
    env: Vars,
    i: usize,
) -> Result<Vars, JobStop>
    ensures { Does is_free V.tells desk.old desk.new spoken.old spoken.new result
        (carrying.hand_entry job.now autos.now place.now env (slice_get job.now.vars i)) }
{
    match job.vars.vars().at(i) {
        Some((name, var)) => hand(alloc, desk, spoken, job, autos, place, env, name, var),
        None => Ok(env),
    }
}

/// The variables of the job's shells: those of the command line, and the exported ones. Only these
/// are gone over, however many others the makefile has.
pub(crate) fn environment<V: View>(
    alloc: Global,
    desk: &mut Desk<V>,
    spoken: &mut Spoken,
    job: &Job,
    autos: &[OwnVar],
    place: &Place,
) -> Result<Vars, JobStop>
    ensures { Does is_free V.tells desk.old desk.new spoken.old spoken.new result
        (carrying.environment job.now autos.now place.now) }
{
    let mut env = Vars::new(alloc)?;
    let places = job.vars.handed();
    for i in places {
        env = hand_entry(alloc, desk, spoken, job, autos, place, env, *i)?;
    }
    Ok(env)
}
