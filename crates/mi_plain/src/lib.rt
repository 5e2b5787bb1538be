//! A plain program of the definitions of the index. It scans all live objects at each question, and
//! holds the transcript of a call against what it finds. It shares no code with the index.
#![tactic(auto)]

mod asked;
mod histories;
mod queries;
mod replies;
mod scans;
mod texts;
mod workloads;

pub use asked::Asked;
pub use histories::check_transcript;
pub use scans::Setting;
pub use texts::{Lines, text_of, words_of};
pub use workloads::{SETTINGS, Workload, drawn, script_text, settings_text};
