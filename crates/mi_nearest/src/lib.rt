//! Queries for the nearest objects.
#![tactic(auto)]

mod laws;
mod nearest;
mod order;
mod sieve;
mod work;

pub use laws::{
    first_rows_stay, nearests_are_short, nearests_begin, nearests_end, nearests_go_on,
    nearests_wait, places_ascend, ranked_leaves_have_the_nearest, taking_goes_on,
};
pub use nearest::NearestOp;
pub use order::{Rank, ranked};
pub use sieve::NearestSieve;
pub use work::NearestWork;
