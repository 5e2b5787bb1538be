//! Tests of metrics and tables, of distances to pivots and the choice of pivots, and of keys.
#![tactic(auto)]

#[cfg(test)]
mod choices;
#[cfg(test)]
mod keys;
#[cfg(test)]
mod metrics;
#[cfg(test)]
mod pivots;
#[cfg(test)]
mod tables;
