//! Tests of `hv_pool` beside a plain pool, and the fixture that they and its measurements use.
#![tactic(auto)]

#[cfg(test)]
mod calls;
pub mod fixture;
#[cfg(test)]
mod plain;
#[cfg(test)]
mod steps;
