//! When a reply is right in a log, and when replies and a log are a legal outcome of scripts.
#![tactic(auto)]

mod laws;

pub use laws::{right_replies_stay_right, scans_are_right_at_the_end};
