//! What all actors share: the log, the claims of leaves, the pins, the leaves that were split, and the pages that are allotted.
#![tactic(auto)]

mod actors;
mod boards;
mod marks;
mod retired;
mod shared;

pub use actors::ActorState;
pub use boards::{Board, Pinned};
pub use retired::RetiredLeaf;
pub use shared::KeptCatalog;
