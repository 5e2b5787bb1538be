//! Distance tables, and the metric of given settings.
#![tactic(auto)]

mod any;
mod checks;
mod faults;
mod tables;

pub use any::AnyMetric;
pub use faults::TableFault;
pub use tables::TableMetric;
