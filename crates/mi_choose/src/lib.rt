//! Choosing pivots among objects: each next one is the farthest from those before it.
#![tactic(auto)]

mod choosing;
mod distances;
mod laws;

pub use choosing::{Choice, choose};
pub use laws::the_nearest_is_a_member;
use mi_base::Sequence;

/// The places of objects in their list, from 0.
pub type Places = Sequence<u32>;
