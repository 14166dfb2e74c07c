//! Laws: what definitions of the crates below mean, in words of POSIX and of GNU make.
#![tactic(auto)]

pub mod comments;
pub mod desk;
pub mod fields;
pub mod files;
pub mod formats;
pub mod glob;
pub mod lines;
pub mod names;
pub mod pathnames;
pub mod paths;
pub mod refs;
pub mod tested;
pub mod texts;
