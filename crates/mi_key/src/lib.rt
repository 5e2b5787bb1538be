//! Keys of entries, and what entries are offered to.
#![tactic(auto)]

mod clusters;
mod distances;
mod entries;
mod keys;
mod ranges;

pub use clusters::{cluster_number, compare_prefixes, same_cluster};
pub use distances::interval;
pub use entries::{Entry, Sieve};
pub use keys::{Key, KeyParts};
pub use ranges::Interval;
