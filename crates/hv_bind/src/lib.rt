//! The names of a select, resolved against the tables of its FROM places: the bound query, or the first refusal.
#![tactic(auto)]

mod binding;
mod columns;
mod condition;
mod grouping;
mod items;
mod names;
mod order;
mod place;
mod scope;

pub use binding::{BindFault, bind};
pub use place::{MAX_PLACES, places};
