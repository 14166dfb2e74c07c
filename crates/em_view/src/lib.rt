//! Asking a tree, recording what was answered, and changing it.
#![tactic(auto)]

mod ask;
mod cost;
mod desk;
mod done;
mod edit;
mod effect;
pub mod laws;
mod names;
mod no;
mod read;
mod refuse;
mod view;
mod walk;
mod write;

pub use cost::blocks;
pub use desk::Desk;
pub use done::{Done, ExecNo, Piece};
pub use effect::Effect;
pub use no::{DeskNo, FileNo};
pub use view::{PlainView, ScriptView, View};
