//! Scripts that are run in threads: a worker for each, and one that splits and sweeps.
#![tactic(auto)]

mod crews;
mod running;
mod tending;
mod workers;

pub use running::run;
