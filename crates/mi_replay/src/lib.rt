//! Scripts after a schedule: which runs are in the order of the schedule, what is true of them, and
//! the turns of the actors.
#![tactic(auto)]

mod laws;
mod outcomes;
mod replaying;
mod seats;
mod tables;

pub use laws::{
    earlier_updates_have_smaller_numbers, held_claims_are_there, queries_tell_nothing_later,
    replies_tell_what_ended_before, runs_in_order_are_runs,
};
pub use mi_settle::settle;
pub use outcomes::{replay, replay_with};
