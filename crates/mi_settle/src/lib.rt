//! The splitter on one thread, and what it settles: turns of a core, what an outcome of scripts
//! tells, whoever ran them, and the end of each run.
#![tactic(auto)]

mod outcomes;
mod settled;
mod settling;
mod splitters;

pub use outcomes::outcome_of;
pub use settled::{
    entries_are_live_objects, idle_boards_are_settled, idle_boards_retire_none,
    trimmed_cores_are_settled, trims_go_on,
};
pub use settling::settle;
pub use splitters::SplitterSeat;
