//! How a host counts its faults.
ghost use Rattle.std.specs.Prelude.{◌≡◌};
ghost use Rattle.em_host.specs.Faults.{count_after};

use crate::no::HostNo;

/// The count after a call that answered so.
pub(crate) fn faults_after<T>(faults: u64, answer: &Result<T, HostNo>) -> u64
    ensures { result ≡ count_after answer.now faults }
{
    match answer {
        Ok(_) => faults,
        Err(e) => match e {
            HostNo::Failed => faults.saturating_add(1),
            HostNo::NoMemory => faults,
        },
    }
}
