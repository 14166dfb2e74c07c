//! Laws: what definitions of the shell mean, in words of POSIX.
#![tactic(auto)]

pub mod lexemes;
pub mod lists;
pub mod loops;
pub mod pipes;
pub mod redirections;
