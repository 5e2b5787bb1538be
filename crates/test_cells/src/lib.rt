//! Tests of cells, pages and shards, beside plain programs of them.
#![tactic(auto)]

#[cfg(test)]
mod catalogs;
#[cfg(test)]
mod pages;
#[cfg(test)]
mod shards;
