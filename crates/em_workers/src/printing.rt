//! What is said on the host.
ghost use Rattle.std.specs.Prelude.{◌≡◌};
ghost use Rattle.em_host.specs.Outside.{Tells};
ghost use Rattle.em_workers.specs.Printing.{print, Says, faults_after};

use crate::no::BuildNo;
use em_host::Host;

/// Prints a text, unless it is empty.
pub(crate) fn print<H: Host>(host: &mut H, text: &[u8]) -> Result<(), BuildNo>
    ensures printed { Tells (Says (print text.now) result) (H.told host.old) (H.told host.new) }
    ensures faults { H.faults host.new ≡ faults_after result (H.faults host.old) }
{
    if text.is_empty() {
        return Ok(());
    }
    host.print(text)?;
    Ok(())
}
