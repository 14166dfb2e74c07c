//! Jobs with the makes within a make that their lines begin: what they are asked to do, and who
//! runs them.
#![tactic(auto)]

pub mod laws;
mod making;
mod spec;
mod turns;
mod work;

pub use making::specs;
pub use spec::MakeSpec;
pub use work::MakeWork;
