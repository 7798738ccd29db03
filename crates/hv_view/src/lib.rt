//! What a query sees of a chunk: its pages by number, with the digest that each has to have.
//! What a chunk means never changes; where its file tells what it holds, the pages are those of its rows.
#![tactic(auto)]

mod held;
mod view;

pub use held::{HeldChunk, HeldChunks, HeldTable, HeldTables, Snapshot};
pub use view::ChunkView;
