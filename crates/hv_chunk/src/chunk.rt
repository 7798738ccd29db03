// A sealed chunk.
ghost use Rattle.std.specs.Prelude.{◌≡◌, ◌≤◌, length};

use hv_dev::{PageFile, Past};
use hv_page::PAGE_BYTES;
use hv_row::{Digest, Schema};
use hv_view::ChunkView;
use std::alloc::Global;
use std::marker::Model;
use std::sync::Arc;

/// A sealed chunk: its file, the digests of its pages, its counts and its schema.
#[derive(Drop)]
pub struct Chunk<F> {
    pub(crate) file: Arc<F, Global>,
    pub(crate) schema: Schema,
    pub(crate) digests: Vec<Digest>,
    pub(crate) heap_pages: u32,
    pub(crate) row_count: u32,
    // Its pages, of which its rows are read by clauses alone.
    pub(crate) pages: Past<[u8; PAGE_BYTES]>,
}

impl<F> Model for Chunk<F> {
    ghost use Rattle.std.specs.Prelude.{◌≡◌, [], length};
    ghost use Rattle.std.specs.Arc.{arc_value};
    ghost use Rattle.hv_page.specs.Layout.{written_version};
    ghost use Rattle.hv_view.specs.View.{Viewed};
    ghost use Rattle.hv_chunk.specs.Building.{rows_on};

    ghost Value = { Viewed F };

    ghost view = { λ c. record { version = written_version; rows = rows_on c.schema c.pages []; schema = c.schema; digests = c.digests.items; heap_pages = c.heap_pages; row_count = c.row_count; file = arc_value c.file } };

    ghost invariant = { λ c. c.heap_pages ≡ length c.digests.items };
}

impl<F: PageFile> ChunkView for Chunk<F> {
    type File = F;

    ghost viewed = { λ c. c };

    fn heap_pages(&self) -> u32 {
        self.heap_pages
    }

    fn row_count(&self) -> u32 {
        self.row_count
    }

    fn digest_of(&self, page: u32) -> Digest {
        self.digests[page as usize]
    }

    fn file(&self) -> &Arc<F, Global> {
        &self.file
    }

    fn schema(&self) -> &Schema {
        &self.schema
    }
}
