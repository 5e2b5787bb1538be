//! Distances to the pivots, and the order in which a vector meets them.
#![tactic(auto)]

mod measuring;
mod ordering;

pub use measuring::Pivots;
pub use ordering::{key_distance, permutation};
