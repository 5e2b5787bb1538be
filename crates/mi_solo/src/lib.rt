//! The core in code, the views of a state, and what the events of the core make of them. The laws' functions do nothing.
#![tactic(auto)]

pub mod board_rows;
mod board_sections;
mod boards;
pub mod cell_keys;
mod copy_sections;
pub mod copying;
pub mod cores;
mod delete_section;
pub mod gather_rows;
pub mod gathering;
pub mod hands;
pub mod insert_rows;
mod insert_section;
pub mod keying;
pub mod leaf_rows;
pub mod page_rows;
mod page_sections;
pub mod page_work;
mod pages;
pub mod placing;
mod route_sections;
pub mod rows;
pub mod seeking;
mod shard_sections;
pub mod shards;
mod solo;
mod split_sections;
mod splits;
mod sweep_sections;
mod views;
mod work_rows;

pub use boards::{
    claims_follow, looks_follow, pages_are_allotted, pins_follow, reservations_follow,
    shards_follow, splits_end, splits_may_end, work_is_given,
};
pub use pages::{
    deletes_follow, deletes_may_be, halves_follow, inserts_follow, inserts_may_be, pages_are_shown,
    posts_follow, roots_follow, visits_follow,
};
pub use solo::Solo;
pub use splits::{
    copies_follow, gathers_follow, keys_fit, sweeps_follow, trims_follow, uncopies_follow,
};
pub use views::{boards_are_seen, hands_are_shown, views_go_on};
