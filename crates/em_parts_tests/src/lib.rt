//! Tests of small parts: conditionals, generated projects, histories, reports, what is learnt.
#![tactic(auto)]

#[cfg(test)]
mod cond;
#[cfg(test)]
mod generated;
#[cfg(test)]
mod history;
#[cfg(test)]
mod learning;
#[cfg(test)]
mod report;
