//! Tests of `hv_io`, `hv_dev` and `hv_chunk` as their callers see them. There is nothing else in this crate.
#![tactic(auto)]

#[cfg(test)]
mod bytes;
#[cfg(test)]
mod chunks;
#[cfg(test)]
mod files;
#[cfg(test)]
mod memory;
#[cfg(test)]
mod packed;
#[cfg(test)]
mod reads;
