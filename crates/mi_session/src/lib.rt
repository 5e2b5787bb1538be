//! A session: operations of one actor, each from its first section to its last, whatever others do
//! between.
#![tactic(auto)]

pub mod laws;
mod session;

pub use session::Session;
