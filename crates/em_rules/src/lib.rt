//! The rules of makefiles.
#![tactic(auto)]

mod book;
mod dots;
pub mod laws;
mod made;
mod rule;
mod rules;
mod special;
mod uses;
mod walk;

pub use book::{Book, BookNo, lacks_recipe};
pub use dots::undotted;
pub use made::{undotted_rule, unmatched};
pub use rule::{RecipeLine, Rule, RuleKind};
pub use rules::Rules;
pub use special::{Names, Special};
