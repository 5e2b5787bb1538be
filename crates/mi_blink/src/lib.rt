//! Descents, walks and posts over any World.
#![tactic(auto)]

pub mod laws;
mod post;
mod turns;
mod walk;

pub use post::{Post, PostTurn};
pub use turns::{Turn, Why};
pub use walk::{Descent, Walk, WalkTurn};
