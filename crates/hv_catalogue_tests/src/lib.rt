//! Tests of `hv_catalogue` as its callers see it. There is nothing else in this crate.
#![tactic(auto)]

#[cfg(test)]
mod asked;
#[cfg(test)]
mod commands;
#[cfg(test)]
mod full;
#[cfg(test)]
mod snapshots;
