//! Tests of the board: random calls beside a list of events that is read by scans.
#![tactic(auto)]

#[cfg(test)]
mod boards;
#[cfg(test)]
mod conditions;
