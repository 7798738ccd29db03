//! Imports: the rows that comma-separated data spells, and the job that makes a chunk of them, page by page.
#![tactic(auto)]

mod fields;
mod job;
mod rows;

pub use job::ImportJob;
pub use rows::{MAX_RECORDS, RowsFault, rows_of};
