//! Range queries.
#![tactic(auto)]

mod laws;
mod leaves;
mod range;
mod sieve;
mod work;

pub use laws::{
    far_objects_are_no_rows, leaves_that_pass_have_the_scan, ranges_are_short, ranges_begin,
    ranges_end, ranges_go_on, ranges_wait, taking_goes_on,
};
pub use range::RangeOp;
pub use sieve::RangeSieve;
pub use work::RangeWork;
