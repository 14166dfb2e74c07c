//! Shells that have done nothing.
use em_path::Path;
use em_vars::Vars;
use em_word::Shell;

/// A shell in the root.
pub(super) fn shell(vars: Vars, status: u8) -> Shell {
    Shell {
        vars,
        cwd: Path::root(),
        status,
    }
}
