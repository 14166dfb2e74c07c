//! A line of the recipe, run.
ghost use Rattle.std.specs.Prelude.{◌≡◌, IfOk};
ghost use Rattle.em_job.specs.Stops.{is_free};
ghost use Rattle.em_job.specs.Carrying as carrying;
ghost use Rattle.em_job.specs.Preparing as preparing;
ghost use Rattle.em_script.specs.Lines.{run_line};
ghost use Rattle.em_view.specs.Steps.{Does, Works};

use crate::environment::environment;
use crate::prepare::{Placed, say};
use crate::stop::{JobStop, of_line};
use em_base::{NoMemory, Place};
use em_expand::{OwnVar, Spoken};
use em_script::ShellLine;
use em_task::Job;
use em_vars::Vars;
use em_view::{Desk, View};
use em_word::Shell;
use std::alloc::Global;

/// The job's shell variables, made if they weren't yet: then the exported variables of the makefile
/// are expanded in their order, at this place, with the job's fuel.
///
/// Errors, all at the place: `Spent`, `Refused` and `Halted` by such an expansion; and `NoMemory`,
/// which may come freely. What was said till then stands. The cost is that of the expansions; one
/// step where the variables are there.
pub fn environment_once<V: View>(
    alloc: Global,
    desk: &mut Desk<V>,
    spoken: &mut Spoken,
    job: &Job,
    autos: &[OwnVar],
    place: &Place,
    env: Option<Vars>,
) -> Result<Vars, JobStop>
    ensures { Does is_free V.tells desk.old desk.new spoken.old spoken.new result
        (carrying.environment_once job.now autos.now place.now env) }
{
    match env {
        Some(env) => Ok(env),
        None => environment(alloc, desk, spoken, job, autos, place),
    }
}

/// The shell in which a line starts: these variables, the job's working directory, and status 0.
/// `NoMemory` alone is an error, and may come freely. The variables are copied.
pub fn shell_of(alloc: Global, job: &Job, env: &Vars) -> Result<Shell, NoMemory>
    ensures { IfOk result (λ s. s ≡ carrying.shell_of job.now env.now) }
{
    Ok(Shell {
        vars: env.copy(alloc)?,
        cwd: job.cwd.copy()?,
        status: 0,
    })
}

/// Runs a line in this shell, which ends with it, and gives its status. What it writes is added to
/// what was said.
///
/// Errors, both at the place: `Spent`, and `Refused` for a construct that isn't supported; and
/// `NoMemory`, which may come freely. What the line did till then stands. The cost is that of
/// `ShellLine::run`.
pub fn run_in<V: View>(
    alloc: Global,
    desk: &mut Desk<V>,
    spoken: &mut Spoken,
    place: &Place,
    line: &ShellLine,
    shell: Shell,
) -> Result<u8, JobStop>
    ensures { Does is_free V.tells desk.old desk.new spoken.old spoken.new result
        (carrying.run_in place.now (run_line line.now) shell) }
{
    let mut shell = shell;
    match line.run(alloc, &mut shell, desk, &mut spoken.said) {
        Ok(status) => Ok(status),
        Err(e) => Err(of_line(alloc, place, e)),
    }
}

/// Runs a line in a shell of its own.
fn in_shell<V: View>(
    alloc: Global,
    desk: &mut Desk<V>,
    spoken: &mut Spoken,
    job: &Job,
    env: &Vars,
    place: &Place,
    line: &ShellLine,
) -> Result<u8, JobStop>
    ensures { Does is_free V.tells desk.old desk.new spoken.old spoken.new result
        (carrying.in_shell job.now env.now place.now line.now) }
{
    let shell = shell_of(alloc, job, env)?;
    run_in(alloc, desk, spoken, place, line, shell)
}

/// Whether the line is echoed.
fn is_shown(job: &Job, placed: &Placed) -> bool
    ensures { result ≡ carrying.is_shown job.now placed.now }
{
    job.flags.dry || !(job.quiet || placed.command.marks.silent)
}

/// Whether the line runs: all lines do but under `-n`, and there those that are marked with `+`.
/// One step.
pub fn does_run(job: &Job, placed: &Placed) -> bool
    ensures { result ≡ carrying.does_run job.now placed.now }
{
    !job.flags.dry || placed.command.marks.forced
}

/// Says the line's text, with a newline, where it is echoed: under `-n` always, else unless it is
/// marked with `@` or the job is quiet. Want of memory alone is an error, and may come freely; a
/// part of the text may then have been said. A step for each byte of the text.
pub fn echo(spoken: &mut Spoken, job: &Job, placed: &Placed) -> Result<(), JobStop>
    ensures { Works is_free spoken.old spoken.new result
        (preparing.say (carrying.echo job.now placed.now)) }
{
    if is_shown(job, placed) {
        spoken.said.add(placed.command.text.bytes())?;
        spoken.said.add(b"\n")?;
    }
    Ok(())
}

/// Runs the line, and hands on the variables of the job's shells.
fn run<V: View>(
    alloc: Global,
    desk: &mut Desk<V>,
    spoken: &mut Spoken,
    job: &Job,
    autos: &[OwnVar],
    env: Option<Vars>,
    place: &Place,
    line: &ShellLine,
) -> Result<(Option<Vars>, u8), JobStop>
    ensures { Does is_free V.tells desk.old desk.new spoken.old spoken.new result
        (carrying.run job.now autos.now env place.now line.now) }
{
    let env = environment_once(alloc, desk, spoken, job, autos, place, env)?;
    let status = in_shell(alloc, desk, spoken, job, &env, place, line)?;
    Ok((Some(env), status))
}

/// Echoes the line, and runs it. One that is only shown has status 0.
pub(crate) fn run_line<V: View>(
    alloc: Global,
    desk: &mut Desk<V>,
    spoken: &mut Spoken,
    job: &Job,
    autos: &[OwnVar],
    env: Option<Vars>,
    placed: &Placed,
    line: &ShellLine,
) -> Result<(Option<Vars>, u8), JobStop>
    ensures { Does is_free V.tells desk.old desk.new spoken.old spoken.new result
        (carrying.run_line job.now autos.now env placed.now line.now) }
{
    echo(spoken, job, placed)?;
    if does_run(job, placed) {
        return run(alloc, desk, spoken, job, autos, env, &placed.place, line);
    }
    Ok((env, 0))
}
