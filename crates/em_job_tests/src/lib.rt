//! The tests of the jobs of a makefile: what they are asked to do, over views whose answers change,
//! run ahead by one worker, and built by several.
#![tactic(auto)]

#[cfg(test)]
mod ahead;
#[cfg(test)]
mod counts;
#[cfg(test)]
mod makefiles;
#[cfg(test)]
mod numbers;
#[cfg(test)]
mod specs;
#[cfg(test)]
mod usage;
