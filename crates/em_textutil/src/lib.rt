//! The text utilities: cat, echo, printf, head, tail, wc, sort, uniq, cmp, grep -F, basename,
//! dirname, test, `[`, true, false and `:`.
#![tactic(auto)]

mod bracket;
mod command;
mod expression;
mod gather;
mod grep;
mod job;
mod name;
mod pair;
mod plain;
mod plan;
mod source;
mod texts;

pub use command::utility;
