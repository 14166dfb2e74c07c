//! The text functions of make.
#![tactic(auto)]

mod function;
pub mod laws;
mod list;
mod no;
mod text;

pub use function::text_function;
pub use no::TextfnNo;

#[cfg(test)]
mod tests;
