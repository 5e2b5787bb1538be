//! Reads settings, schedules and scripts from the bytes of their files.
#![tactic(auto)]

mod faults;
mod fields;
mod numbers;
mod pivots;
mod records;
mod schedules;
mod scripts;
mod settings;
mod tables;
mod vectors;

pub use faults::{InputFault, Reason};
pub use numbers::count;
pub use schedules::read_schedule;
pub use scripts::read_script;
pub use settings::read_settings;
