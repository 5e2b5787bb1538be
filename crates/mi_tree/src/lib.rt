//! The cells, what a log and replies may be, and what a run of scripts leaves.
#![tactic(auto)]

mod answers;
mod catalogs;
mod cells;
mod counts;
mod laws;
mod leaves;
mod outcomes;
mod refusals;

pub use answers::{AllotRefusal, CommitRefusal, LeafClaim, Look, ReserveRefusal, Work};
pub use catalogs::Catalog;
pub use cells::{is_before, is_same};
pub use counts::Placed;
pub use laws::{
    born_objects_are_live, cat_ascends, cat_begins, cat_counts, cat_deletes, cat_has_leaves,
    cat_inserts, cat_splits, cat_without_pivots, hulls_cover, leaves_are_in_order,
    leaves_are_of_the_pivots, leaves_part_permutations, legal_logs_may_split, legal_logs_split_few,
    live_objects_stand_once, spaces_are_grids,
};
pub use outcomes::{Leaf, Leaves, Outcome};
pub use refusals::SplitRefusal;
