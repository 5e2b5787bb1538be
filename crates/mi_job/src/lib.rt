//! One operation with its help, over any World: an update with the splits that it makes, and the splitter's sweeps and splits.
#![tactic(auto)]

mod care;
mod inserts;
mod job;
pub mod laws;
mod turns;

pub use care::{Care, CareTurn};
pub use job::Job;
pub use turns::JobTurn;
