//! A page of the B-link tree: an ordered list of entries or routes with a range of keys.
#![tactic(auto)]

mod entries;
mod laws;
mod pages;
mod routes;

pub use laws::{
    calls_keep_pages, children_are_one, deaths_hide_one, found_entries_live, halves_are_sides,
    halves_have_all, halves_part_keys, halves_show_all, inserts_show_one, removals_hide_one,
    shown_is_a_filter, sweeps_hide_their_interval, trims_hide_nothing,
};
pub use pages::Page;
pub use routes::Route;
