//! The utilities that work on files: cp, mv, rm, mkdir, rmdir, touch, ls, ln,
//! readlink.
#![tactic(auto)]

mod act;
mod command;
mod copy;
mod link;
mod list;
mod make;
mod operand;
mod remove;
mod table;

pub use command::utility;
