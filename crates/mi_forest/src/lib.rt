//! Linked pages: the chain of each level, the entries of all leaf pages, and what each event makes of them.
#![tactic(auto)]

mod laws;

pub use laws::{
    changes_keep_pages, hands_are_filled, keys_are_looked_up, keys_have_pages, levels_are_few,
    losses_are_unseen, losses_go_on, moves_lead_on, pages_are_linked_or_held, pages_part_entries,
    pages_stay, paths_go_straight, posts_keep_pages, roots_grow, splits_keep_pages,
    splits_lengthen, walks_go_on,
};
