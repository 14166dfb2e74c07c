//! What was read of makefiles so far, and what each line does to it without asking anything.
#![tactic(auto)]

mod assign;
mod begin;
mod body;
mod conditions;
mod goal;
mod heard;
mod no;
mod noted;
mod reading;
mod rules;
mod vars;

pub use assign::refused_in;
pub use begin::{start, start_vars};
pub use body::whole;
pub use heard::{Expanded, Heard};
pub use no::{MakefileFault, ReadNo, RuleNo, absent, at, desk_fault, expand_fault, refused};
pub use noted::{Missing, Noted};
pub use reading::{OpenDefine, Reading};
pub use vars::is_expanded;
