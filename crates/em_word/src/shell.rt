//! What a shell knows.

use em_path::Path;
use em_vars::Vars;

/// What a shell knows.
#[derive(Drop)]
pub struct Shell {
    /// Its variables. Each has its text as it is.
    pub vars: Vars,
    /// The working directory.
    pub cwd: Path,
    /// The status of the last command, `$?`.
    pub status: u8,
}
