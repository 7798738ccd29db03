//! Tests of `hv_page`, `hv_heap` and `hv_frames` as their callers see them. There is nothing else in this crate.
#![tactic(auto)]

#[cfg(test)]
mod frames;
#[cfg(test)]
mod heap;
#[cfg(test)]
mod made;
#[cfg(test)]
mod page;
#[cfg(test)]
mod points;
