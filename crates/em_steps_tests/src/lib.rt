//! The tests of jobs that pause at lines that begin a make within a make, and of jobs whose
//! prerequisites' outcomes are known.
#![tactic(auto)]

#[cfg(test)]
mod changes;
#[cfg(test)]
mod known;
#[cfg(test)]
mod makefiles;
#[cfg(test)]
mod prepared;
#[cfg(test)]
mod shows;
#[cfg(test)]
mod turns;
