//! The report of a build: what is said of each job, its text, and the reading of such a text.
#![tactic(auto)]

mod cursor;
pub mod laws;
mod no;
mod parts;
mod reading;
mod report;
mod words;
mod writing;

pub use no::ReportNo;
pub use reading::read;
pub use report::{CauseWord, Report, ReportLine};
pub use writing::write;
