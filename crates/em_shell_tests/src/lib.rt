//! The tests of the shell's words and of its simple commands.
#![tactic(auto)]

#[cfg(test)]
mod command;
#[cfg(test)]
mod shells;
#[cfg(test)]
mod word;
