//! Laws: what definitions of recipes mean, in words of GNU make.
#![tactic(auto)]

pub mod recipes;
