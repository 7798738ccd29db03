//! Tests of `hv_import` as its callers see it: data with the rows that it spells, and the turns of its job. There is nothing else in this crate.
#![tactic(auto)]

#[cfg(test)]
mod job;
#[cfg(test)]
mod made;
#[cfg(test)]
mod rows;
