//! Tests of the rules by which a query leaves objects out, and of the work of each kind of query.
#![tactic(auto)]

#[cfg(test)]
mod nearest;
#[cfg(test)]
mod ranges;
#[cfg(test)]
mod rules;
