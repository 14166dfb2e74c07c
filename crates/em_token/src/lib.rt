//! The classes of a recipe line's lexemes, and the parts of its grammar with no word and no list
//! inside.
#![tactic(auto)]

pub mod held;
pub mod kind;
pub mod read;
pub mod stop;
