//! The plain executor: a condition's truth, and the answer of a query by nested loops over all rows.
//! What it answers is the definition's answer; every faster way to answer is compared with it.
#![tactic(auto)]

mod aggregate;
mod condition;
mod grouping;
mod law;
mod lent;
mod limited;
mod loops;
mod ordering;
mod plain;
mod rows_out;

pub use condition::holds;
pub use law::{answer_law, truth_law};
pub use plain::{NaiveFault, naive, outputs};
