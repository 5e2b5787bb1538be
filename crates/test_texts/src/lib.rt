//! Tests of the replay of one script, from the bytes of its files to the bytes of its text.
#![tactic(auto)]

#[cfg(test)]
mod calls;
#[cfg(test)]
mod faults;
#[cfg(test)]
mod nearest;
#[cfg(test)]
mod transcripts;
