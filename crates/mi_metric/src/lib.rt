//! Metrics over vectors of whole numbers.
#![tactic(auto)]

mod hamming;
mod l1;
mod max;
mod spaces;

pub use hamming::Hamming;
pub use l1::L1;
pub use max::Max;
pub use spaces::Metric;
