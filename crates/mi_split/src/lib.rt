//! Splits and sweeps of leaves over any World.
#![tactic(auto)]

pub mod laws;
mod split;
mod sweep;

pub use split::{SplitOp, SplitTurn};
pub use sweep::SweepOp;
