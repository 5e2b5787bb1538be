//! Inserts and deletes over any World.
#![tactic(auto)]

mod delete;
mod endings;
mod insert;
pub mod laws;

pub use delete::DeleteOp;
pub use insert::InsertOp;
