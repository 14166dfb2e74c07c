//! The tests of threads over a shared board: who waits is woken, and builds.
#![tactic(auto)]

#[cfg(test)]
mod builds;
#[cfg(test)]
mod gates;
#[cfg(test)]
mod hosts;
#[cfg(test)]
mod shows;
#[cfg(test)]
mod waking;
