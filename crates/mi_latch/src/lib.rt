//! The state that all actors share, laid out over one table of latched values: the rule, and the
//! takes and gives of the board, of shards and of pages.
#![tactic(auto)]

mod ends;
mod known;
mod latches;
mod laws;
mod loads;
mod slots;
mod table;
mod view;

pub use known::Known;
pub use latches::{Aim, Latches, Of, OfShard};
pub use laws::{gives_are_events, shards_and_families_are_events};
pub use slots::Slot;
pub use table::{LatchTable, Seat};
pub use view::View;
