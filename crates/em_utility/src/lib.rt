//! What the utilities share: options, reasons and error lines, what a command writes, and the
//! reading of a file operand.
#![tactic(auto)]

mod operand;
mod options;
mod reason;
mod writing;

pub use operand::{OperandNo, fault, located, named, read, settle};
pub use options::{Options, read_options};
pub use reason::{Reason, error_line};
pub use writing::{begun, fail, write};
