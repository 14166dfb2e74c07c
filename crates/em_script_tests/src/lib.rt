//! The tests of a whole line for the shell, and of jobs with one line.
#![tactic(auto)]

#[cfg(test)]
mod group;
#[cfg(test)]
mod job;
#[cfg(test)]
mod script;
#[cfg(test)]
mod sub;
