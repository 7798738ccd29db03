// What a query holds of a database at one length of its history.
use hv_row::{Copied, Listed, Shared};
use std::alloc::{AllocError, Global};

/// A chunk of a table: its number, and the chunk itself, which copies share.
#[derive(Drop)]
pub struct HeldChunk<V> {
    pub chunk: u32,
    pub view: Shared<V>,
}

/// Chunks in their table's order.
pub type HeldChunks<V> = Listed<HeldChunk<V>>;

/// The chunks of a table.
#[derive(Drop)]
pub struct HeldTable<V> {
    pub chunks: HeldChunks<V>,
}

/// Tables in the order in which they were asked for.
pub type HeldTables<V> = Listed<HeldTable<V>>;

/// The chunks of each table that was asked for, at one length of the history. It stays as it is, whatever becomes of the tables.
#[derive(Drop)]
pub struct Snapshot<V> {
    pub tables: HeldTables<V>,
}

impl<V: Drop> Copied for HeldChunk<V> {
    fn copy(&self, alloc: Global) -> Result<HeldChunk<V>, AllocError> {
        Ok(HeldChunk {
            chunk: self.chunk,
            view: self.view.copy(alloc)?,
        })
    }
}

impl<V: Drop> Copied for HeldTable<V> {
    fn copy(&self, alloc: Global) -> Result<HeldTable<V>, AllocError> {
        Ok(HeldTable {
            chunks: self.chunks.copy(alloc)?,
        })
    }
}

impl<V: Drop> Copied for Snapshot<V> {
    fn copy(&self, alloc: Global) -> Result<Snapshot<V>, AllocError> {
        Ok(Snapshot {
            tables: self.tables.copy(alloc)?,
        })
    }
}
