//! A job with the makes within a make that its lines begin.
#![tactic(auto)]

mod climbing;
mod ground;
mod known;
pub mod laws;
mod levels;
mod steps;

pub use climbing::make;
pub use steps::{Maker, Steps};
