//! A script as a whole.
ghost use Rattle.std.specs.Prelude.{◌≡◌, ◌++◌, [], false, Ok, Err, IfOk, OnOk};
ghost use Rattle.em_command.specs.Heres.{begun};
ghost use Rattle.em_exec.specs.Exec as runs;
ghost use Rattle.em_exec.specs.Exec.{said, closed, left_by};
ghost use Rattle.em_exec.specs.Words.{in_copy};
ghost use Rattle.em_view.specs.Ends.{is_want};
ghost use Rattle.em_view.specs.Performs.{is_free};
ghost use Rattle.em_view.specs.Steps.{Does, with_state};

use crate::run::script_in;
use em_base::{NoMemory, Text};
use em_command::{Here, Jump, Scene};
use em_syntax::Script;
use em_tree::Body;
use em_view::{Desk, ExecNo, Piece, View};
use em_word::Shell;
use std::alloc::Global;

/// Appends what was written, in order.
fn say(out: &mut Text, pieces: &[Piece]) -> Result<(), NoMemory>
    ensures { OnOk result (out.new ≡ out.old ++ said pieces.now) }
{
    for piece in pieces {
        out.add(piece.text.bytes())?;
    }
    Ok(())
}

/// An equal shell.
fn copy_of(alloc: Global, shell: &Shell) -> Result<Shell, NoMemory>
    ensures { IfOk result (λ s. s ≡ shell.now) }
{
    Ok(Shell {
        vars: shell.vars.copy(alloc)?,
        cwd: shell.cwd.copy()?,
        status: shell.status,
    })
}

/// A copy of the shell, which has written nothing yet.
pub(crate) fn begin(alloc: Global, shell: &Shell) -> Result<Here, NoMemory>
    ensures { IfOk result (λ h. h ≡ begun shell.now) }
{
    Ok(Here::new(alloc, copy_of(alloc, shell)?))
}

/// Where a line stands: it reads nothing, and no loop is around.
pub(crate) fn line_scene(alloc: Global) -> Result<Scene, NoMemory>
    ensures { IfOk result (λ s. s ≡ in_copy []) }
{
    Ok(Scene {
        input: Body::from_slice(alloc, b"")?,
        in_loop: false,
    })
}

/// What was written is appended, and the shell that was lent is what its copy has come to. The only
/// error is `NoMemory`.
pub(crate) fn go_back(here: Here, shell: &mut Shell, out: &mut Text) -> Result<(), NoMemory>
    ensures { OnOk result (record { shell = shell.new; output = out.new }
        ≡ left_by here (record { shell = shell.old; output = out.old })) }
{
    say(out, here.pieces.items())?;
    *shell = here.shell;
    Ok(())
}

/// Goes back to the shell that was lent, with the status.
fn close(
    ended: Result<(), Jump>,
    here: Here,
    shell: &mut Shell,
    out: &mut Text,
) -> Result<u8, ExecNo>
    ensures { is_free is_want result ≡ false →
        with_state result (record { shell = shell.new; output = out.new })
        ≡ closed (record { shell = shell.old; output = out.old }) (with_state ended here) }
{
    let status = here.shell.status;
    go_back(here, shell, out)?;
    match ended {
        Err(Jump::End(e)) => Err(e),
        Ok(()) | Err(Jump::Exit) | Err(Jump::Break) | Err(Jump::Continue) => Ok(status),
    }
}

/// Runs a script. The answer is its status, from 0 to 255; after it the shell has its variables,
/// its working directory and, as `$?`, its status. What it writes to its streams 1 and 2 is
/// appended to `out`, in the order of writing, also before an error.
///
/// Errors: `Refused` by the first construct that it comes to and that isn't supported: an option, a
/// command that is refused by its name, a descriptor, or more than 64 compound commands and
/// substitutions in one another. `Spent`, where the fuel doesn't suffice: each simple command, each
/// turn of a loop and each `$` expansion costs a unit, each 256 bytes that a command writes or an
/// expansion gives cost one, and the desk takes its own. The changes till then stand. `NoMemory`.
///
/// The shell's variables are copied once, and once for each subshell, substitution and stage of a
/// pipeline. For the rest it takes the steps of its commands, and for each byte that is written one
/// step for each redirection and copy around it.
pub fn exec<V: View>(
    alloc: Global,
    script: &Script,
    shell: &mut Shell,
    desk: &mut Desk<V>,
    out: &mut Text,
) -> Result<u8, ExecNo>
    ensures { Does is_want V.tells desk.old desk.new
        (record { shell = shell.old; output = out.old })
        (record { shell = shell.new; output = out.new })
        result (runs.run script.now) }
{
    let mut here = begin(alloc, shell)?;
    let scene = line_scene(alloc)?;
    let ended = script_in(alloc, 65, script, &scene, &mut here, desk);
    close(ended, here, shell, out)
}
