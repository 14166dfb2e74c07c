//! Tests of whole runs over a host in memory.
#![tactic(auto)]

#[cfg(test)]
mod big;
#[cfg(test)]
mod builds;
#[cfg(test)]
mod damage;
#[cfg(test)]
mod explain;
#[cfg(test)]
mod files;
#[cfg(test)]
mod limits;
#[cfg(test)]
mod runs;
#[cfg(test)]
mod workers;
