//! The calls on the host.
ghost use Rattle.std.specs.Prelude.{◌≡◌, IsErr};
ghost use Rattle.em_program.specs.Course.{say, take, keep, stop, Follows, faults_after};

use crate::stop::ProgramEnd;
use crate::verdict::BuildStatus;
use em_base::Text;
use em_host::Host;
use std::alloc::Global;

/// Prints a text, unless it is empty.
pub fn say<H: Host>(host: &mut H, text: &[u8]) -> Result<(), ProgramEnd>
    ensures told { Follows (say text.now) result (H.told host.old) (H.told host.new) }
    ensures faults { H.faults host.new ≡ faults_after result (H.faults host.old) }
{
    if text.is_empty() {
        return Ok(());
    }
    host.print(text)?;
    Ok(())
}

/// Prints the last text of a run, which ends so.
pub fn stop<H: Host, T>(host: &mut H, text: &[u8], verdict: BuildStatus) -> Result<T, ProgramEnd>
    ensures told { Follows (stop text.now verdict) result (H.told host.old) (H.told host.new) }
    ensures ends { IsErr result }
    ensures faults { H.faults host.new ≡ faults_after result (H.faults host.old) }
{
    say(host, text)?;
    Err(ProgramEnd::End(verdict))
}

/// The bytes of a file of the host, where there is one.
pub fn take<H: Host>(alloc: Global, host: &mut H, name: &[u8]) -> Result<Option<Text>, ProgramEnd>
    ensures told { Follows (take name.now) result (H.told host.old) (H.told host.new) }
    ensures faults { H.faults host.new ≡ faults_after result (H.faults host.old) }
{
    match host.take(alloc, name)? {
        Some(bytes) => Ok(Some(Text::from_vec(bytes))),
        None => Ok(None),
    }
}

/// Makes a file of the host these bytes.
pub fn keep<H: Host>(
    alloc: Global,
    host: &mut H,
    name: &[u8],
    bytes: &[u8],
) -> Result<(), ProgramEnd>
    ensures told { Follows (keep name.now bytes.now) result (H.told host.old) (H.told host.new) }
    ensures faults { H.faults host.new ≡ faults_after result (H.faults host.old) }
{
    host.replace(alloc, name, bytes)?;
    Ok(())
}
