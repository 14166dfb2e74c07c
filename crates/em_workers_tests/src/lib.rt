//! The tests of a shared board, and on one thread of the committer and of workers over it.
#![tactic(auto)]

#[cfg(test)]
mod ahead;
#[cfg(test)]
mod commits;
#[cfg(test)]
mod gates;
#[cfg(test)]
mod shared;
#[cfg(test)]
mod shows;
#[cfg(test)]
mod turns;
