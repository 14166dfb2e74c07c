//! The outside: files under names, and one output.
#![tactic(auto)]

mod call;
mod calls;
mod faults;
mod host;
mod lock;
mod mem;
mod moving;
mod no;
mod real;
mod replacing;
mod seen;
mod stop;

pub use call::{Call, Called};
pub use host::Host;
pub use lock::LockFile;
pub use mem::MemHost;
pub use no::HostNo;
pub use real::RealHost;
pub use stop::{Fault, Reason};
