//! How a build ended that neither the host nor want of memory broke off.
ghost use Rattle.std.specs.Prelude.{◌≡◌};
ghost use Rattle.em_program.specs.Statuses.{code_of};

/// How a build ended that neither the host nor want of memory broke off.
#[derive(Clone, Copy, Debug, PartialEq, Eq)]
pub enum BuildStatus {
    /// The goals are made, or what the words asked for was printed.
    Done,
    /// It was only asked (`-q`), and something is to be made.
    Outdated,
    /// Something was refused before the build, a line failed, a rule is missing, or the new image
    /// breaks a limit.
    Faulty,
    /// A job met a construct that is refused.
    Refused,
    /// A job's fuel was spent.
    Spent,
}

impl BuildStatus {
    /// The exit status: 0, 1, 2, 4 or 5.
    pub fn code(self) -> u8
        ensures { result ≡ code_of self }
    {
        match self {
            BuildStatus::Done => 0,
            BuildStatus::Outdated => 1,
            BuildStatus::Faulty => 2,
            BuildStatus::Refused => 4,
            BuildStatus::Spent => 5,
        }
    }
}
