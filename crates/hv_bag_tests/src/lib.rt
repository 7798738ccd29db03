//! Tests of `hv_bag` at numbers and at rows. There is nothing else in this crate.
#![tactic(auto)]

#[cfg(test)]
mod bags;
