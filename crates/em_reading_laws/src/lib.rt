//! Laws: what the definitions of expanding and reading makefiles mean, in words of GNU make.
#![tactic(auto)]

pub mod expansion;
pub mod head;
pub mod reading;
