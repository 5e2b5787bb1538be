//! A board as a list of events, each question answered by a scan of it, for the tests of the board.
#![tactic(auto)]

mod events;
mod listed;

pub use events::Event;
pub use listed::Listed;
