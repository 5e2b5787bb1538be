//! Large workloads, made from a number.
#![tactic(auto)]

mod draws;
mod workload;

pub use workload::{Workload, make};
