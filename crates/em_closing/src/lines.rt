//! The lines of the closing text.
ghost use Rattle.std.specs.Prelude.{◌≡◌, ◌++◌, OnOk};
ghost use Rattle.em_closing.specs.Closing as closing;

use em_base::{NoMemory, Text};

/// Appends that the goal isn't remade, since a prerequisite of it failed.
pub(crate) fn put_not_remade(out: &mut Text, goal: &[u8]) -> Result<(), NoMemory>
    ensures { OnOk result (out.new ≡ out.old ++ closing.not_remade goal.now) }
{
    out.add(b"emake: Target '")?;
    out.add(goal)?;
    out.add(b"' not remade because of errors.\n")
}

/// Appends that the goal has no recipe, or is phony, and that nothing was made for it.
pub(crate) fn put_nothing_to_do(out: &mut Text, goal: &[u8]) -> Result<(), NoMemory>
    ensures { OnOk result (out.new ≡ out.old ++ closing.nothing_to_do goal.now) }
{
    out.add(b"emake: Nothing to be done for '")?;
    out.add(goal)?;
    out.add(b"'.\n")
}

/// Appends that the goal needn't be made again.
pub(crate) fn put_up_to_date(out: &mut Text, goal: &[u8]) -> Result<(), NoMemory>
    ensures { OnOk result (out.new ≡ out.old ++ closing.up_to_date goal.now) }
{
    out.add(b"emake: '")?;
    out.add(goal)?;
    out.add(b"' is up to date.\n")
}
