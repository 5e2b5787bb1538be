//! Tests of the commands, from their words to their status and their text, and of the system's
//! files.
#![tactic(auto)]

#[cfg(test)]
mod adapters;
#[cfg(test)]
mod calls;
#[cfg(test)]
mod choices;
#[cfg(test)]
mod commands;
#[cfg(test)]
mod makes;
#[cfg(test)]
mod runs;
