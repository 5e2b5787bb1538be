//! The text of what came of the scripts.
#![tactic(auto)]

mod figures;
mod laws;
mod line;
mod transcript;

pub use figures::summary;
pub use laws::one_text_has_one_meaning;
pub use line::Line;
pub use transcript::{render, send_numbers};
