//! Bags: lists up to the order of their members, by equal sums under every weight.
//! Two lists are one bag exactly where each value stands in both as often.
#![tactic(auto)]

mod law;
mod rows;

pub use law::{bag_laws, count_laws, map_laws, order_laws, part_laws};
pub use rows::same_rows;
