//! One job: whether it remakes its targets, and how its recipe runs.
#![tactic(auto)]

mod awaiting;
mod carry;
mod due;
mod environment;
mod fail;
pub mod laws;
mod line;
mod making;
mod prepare;
mod ready;
mod spec;
mod stop;
mod work;

pub use carry::{LineEnd, after_line};
pub use em_task::{Flags, Job, SharedPairs, SharedVars};
pub use line::{does_run, echo, environment_once, run_in, shell_of};
pub use making::{spec_of, specs};
pub use prepare::{Placed, Prepared, RecipeStart, prepare_job};
pub use ready::{ParsedLine, read_lines};
pub use spec::JobSpec;
pub use stop::{JobStop, end_of, of_desk, of_line, put_stop, refused};
pub use work::JobWork;
