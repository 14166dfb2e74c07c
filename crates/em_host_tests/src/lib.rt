//! The tests of hosts.
#![tactic(auto)]

#[cfg(test)]
mod mem;
#[cfg(test)]
mod real;
#[cfg(test)]
mod watched;
