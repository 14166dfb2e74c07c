//! A board that threads share, and what a claimed job is answered by it.
#![tactic(auto)]

mod no;
mod shared;
mod view;

pub use no::{Held, SettleNo};
pub use shared::Shared;
pub use view::SharedView;
