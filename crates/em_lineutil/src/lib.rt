//! What the text utilities make of bytes: lines, counts, order, formats, names and the forms of
//! `test`.
#![tactic(auto)]

mod count;
mod difference;
mod format;
pub mod laws;
mod line;
mod name;
mod search;
mod sort;
mod test;
mod uniq;

pub use count::{Asked, count_line};
pub use difference::{Comparison, compare};
pub use format::{FormatNo, Part, faults, format_of, number, printed};
pub use line::{head, tail};
pub use name::{base_name, dir_name, without_suffix};
pub use search::{Search, prefixed, selected};
pub use sort::{Order, sort_text};
pub use test::{Binary, Form, Relation, Unary, form_of, is_related, stripped};
pub use uniq::uniq_text;

#[cfg(test)]
mod tests;
