//! Places at the table of latched values: what a seat knows, its view, and what each section makes
//! of that.
#![tactic(auto)]

mod absorbed;
mod boards;
mod claim_calls;
mod closing;
mod commit_gives;
mod commits;
mod copy_calls;
mod delete_call;
mod families;
mod family_calls;
mod gather_call;
mod give_up_call;
mod grow_call;
mod insert_call;
mod page_calls;
mod pages;
mod passes;
mod places;
mod publish_call;
mod seats;
mod shard_calls;
mod shards;
mod splits;
mod sweep_call;
mod worlds;

pub use boards::{
    claims_follow, looks_follow, pages_are_allotted, pins_follow, reservations_follow,
    roots_follow, splits_end, work_is_given,
};
pub use closing::HallBack;
pub use commits::{deletes_follow, inserts_follow};
pub use families::actors_follow;
pub use pages::{halves_follow, posts_follow, sweeps_follow, trims_follow, visits_follow};
pub use passes::Pass;
pub use places::{Hall, Place};
pub use seats::{conditions_are_met, pages_are_known, seats_are_shown};
pub use shards::shards_follow;
pub use splits::{copies_follow, gathers_follow, uncopies_follow};
