//! The expansion of texts of make: references, variables and functions.
#![tactic(auto)]

mod calls;
pub mod laws;
mod layers;
mod no;
mod pick;
mod put;
mod scope;
mod spoken;
mod table;
mod text;
mod values;

pub use layers::{Layers, OwnVar, own_text};
pub use no::ExpandNo;
pub use spoken::Spoken;
pub use text::expand;
