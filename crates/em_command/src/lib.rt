//! A simple command of the shell, once its words are known: the built-ins, the utilities by their
//! names, redirections, and where what is written goes.
#![tactic(auto)]

mod act;
mod builtin;
mod command;
mod delivery;
mod here;
mod jump;
mod streams;

pub use act::perform;
pub use delivery::{deliver, hand};
pub use here::{Here, Scene};
pub use jump::{Flow, Jump};
pub use streams::{OpenedFile, Sink, Streams, redirect};
