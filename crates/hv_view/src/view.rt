// A chunk, seen by those who read it.
ghost use Rattle.std.specs.Prelude.{◌≡◌, [], ◌<◌, ◌≤◌, length, get_or};
ghost use Rattle.std.specs.Arc.{arc_value};
ghost use Rattle.hv_view.specs.View.{Viewed};

use hv_dev::PageFile;
use hv_row::{Digest, Schema};
use std::alloc::Global;
use std::sync::Arc;

/// A sealed chunk. None of its calls takes memory.
pub trait ChunkView: Drop {
    type File: PageFile;

    /// Its rows, its schema, the digest recorded for each page, its counts and its file.
    ghost viewed: { Self → Viewed Self.File };

    /// How many heap pages it has: its pages below this number hold its rows.
    fn heap_pages(&self) -> u32
        ensures same { result ≡ (viewed self.now).heap_pages }
        ensures within { result ≤ length (viewed self.now).digests };

    /// How many rows it has.
    fn row_count(&self) -> u32
        ensures { result ≡ (viewed self.now).row_count };

    /// The digest recorded for a page of the chunk, one below the number of its digests.
    fn digest_of(&self, page: u32) -> Digest
        requires { page < length (viewed self.now).digests }
        ensures { result ≡ get_or (viewed self.now).digests page [] };

    /// The file of its pages.
    fn file(&self) -> &Arc<Self::File, Global>
        ensures { arc_value result.now ≡ (viewed self.now).file };

    /// The schema under which it was built.
    fn schema(&self) -> &Schema
        ensures { result.now ≡ (viewed self.now).schema };
}
