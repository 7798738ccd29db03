//! The catalogue: tables of chunks, the commands that change them, and the history of those that were accepted.
//! It holds chunks without reading them: what it means is the database of its chunks, and its history.
#![tactic(auto)]

mod catalogue;
mod command;
mod stored;
mod taken;

pub use catalogue::{Catalogue, MAX_CHUNKS, MAX_ENTRIES, MAX_TABLES};
pub use command::{ApplyFault, ChunkCommand};
pub use taken::{SnapFault, Taken};
