//! The tests of what the utilities share, of those that work on files and of those that work on
//! text.
#![tactic(auto)]

#[cfg(test)]
mod fileutil;
#[cfg(test)]
mod shows;
#[cfg(test)]
mod textutil;
#[cfg(test)]
mod trees;
#[cfg(test)]
mod utility;
