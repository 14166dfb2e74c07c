//! What the expansions of a shell's word are made of: bytes and whether they are quoted, the forms
//! of `${..}` on values, and fields.
#![tactic(auto)]

mod cut;
mod form;
pub mod laws;
mod part;
mod split;

pub use cut::{Cut, cut_off};
pub use form::{Early, Form, Late, early_value, form_of, late_value};
pub use part::{Part, add_bytes, add_mark, add_parts, bytes, glyphs, size};
pub use split::{fields, without_newlines};
