//! The words of a command line.
#![tactic(auto)]

mod check;
mod command;
pub mod laws;
mod order;
mod page;
mod read;
mod sub;

pub use order::{HistoryMode, Order, WordNo};
pub use page::{Page, page_in};
pub use read::read_words;
pub use sub::read_sub_words;
