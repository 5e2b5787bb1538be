//! Tests of places, sessions and whole runs, whose threads are all joined.
#![tactic(auto)]

#[cfg(test)]
mod opening;
#[cfg(test)]
mod places;
#[cfg(test)]
mod runs;
#[cfg(test)]
mod sessions;
