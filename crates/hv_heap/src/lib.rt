//! Rows packed into heap pages, and rows read from them.
//! An entry goes on the page where it fits, else on the next one; a finished page is lent until the next row.
#![tactic(auto)]

mod reading;
mod writer;

pub use reading::row_at;
pub use writer::{HeapWriter, Placed};
