//! Pages of 4,096 bytes: entries behind a table of their places, read in place, made entry by entry, told by a digest.
//! Whole pages are defined from lists of entries; what is read from a page is exactly the entries that it was made of.
#![tactic(auto)]

mod fault;
mod hashing;
mod heap;
mod layout;
mod row_id;

pub use hashing::digest;
pub use heap::{HEAP_KIND, HeapView, parse_heap};
pub use layout::{Form, PAGE_BYTES, begin, push, push_down};
pub use row_id::RowId;
