//! Tests of the rules of makefiles, of implicit rules, of the plan, and of makefiles that
//! are remade.
#![tactic(auto)]

#[cfg(test)]
mod implicit;
#[cfg(test)]
mod kinds;
#[cfg(test)]
mod plan;
#[cfg(test)]
mod plan_through;
#[cfg(test)]
mod remake;
#[cfg(test)]
mod rules;
#[cfg(test)]
mod through;
#[cfg(test)]
mod written;
