//! Which cells a query opens, which keys of them it reads, and which objects it is compared with.
#![tactic(auto)]

mod bounds;
mod filters;
mod laws;
mod spans;

pub use bounds::{bound, passes};
pub use filters::filter;
pub use laws::{filter_implies_passing, no_answer_is_dropped, passing_grows};
pub use spans::{near_span, span};
