//! Tests of several sessions, from their scripts to their transcript: after schedules and in
//! threads.
#![tactic(auto)]

#[cfg(test)]
mod overlaps;
#[cfg(test)]
mod schedules;
#[cfg(test)]
mod workloads;
