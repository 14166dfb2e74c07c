//! Tests of expansion, of functions on names, of pathnames and of recipes.
#![tactic(auto)]

#[cfg(test)]
mod expand;
#[cfg(test)]
mod namefn;
#[cfg(test)]
mod pathname;
#[cfg(test)]
mod recipe;
#[cfg(test)]
mod usage;
