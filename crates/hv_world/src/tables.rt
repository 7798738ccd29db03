// The pages of the tables of a query, and the places that have one table.
ghost use Rattle.std.specs.Prelude.{◌≡◌, ◌==◌, ◌*◌, ◌+◌, ◌^◌, ◌<◌, ◌≤◌, List, ℕ, length, position, slice_get, Some, IfSome, MatchOption};
ghost use Rattle.std.specs.List.{All, sum_by};
ghost use Rattle.hv_row.specs.declared.value.Value.{Value};
ghost use Rattle.hv_view.specs.View.{Viewed};
ghost use Rattle.hv_view.specs.declared.held.HeldChunk.{HeldChunk as HeldChunks};
ghost use Rattle.hv_world.specs.Answer.{TableStands};
ghost use Rattle.hv_world.specs.Selecting.{AreRowsTo, LeadsTo, pages_of, rows_held};

use hv_chunk::Chunk;
use hv_dev::PageFile;
use hv_view::{ChunkView, HeldChunk, HeldTable};

/// How many pages tables have.
pub fn count_pages<F: PageFile>(tables: &[HeldTable<Chunk<F>>]) -> u64
    requires few { length tables.now ≤ 4 }
    requires short { All (λ t. length t.chunks ≤ 1024) tables.now }
    ensures { result ≡ sum_by (λ t. pages_of t.chunks) tables.now }
{
    let mut count: u64 = 0;
    for table in tables {
        count += count_heap(table.chunks.as_slice());
    }
    count
}

// How many pages chunks have.
fn count_heap<F: PageFile>(chunks: &[HeldChunk<Chunk<F>>]) -> u64
    requires few { length chunks.now ≤ 1024 }
    ensures counted { result ≡ pages_of chunks.now }
    ensures fits { result ≤ 4398046511104 }
{
    let mut count: u64 = 0;
    for held in chunks {
        count += u64::from(held.view.get().heap_pages());
    }
    count
}

/// Where a table stands among the tables of places.
pub fn place_of(places: &[u32], at: u32) -> Option<usize>
    ensures { result ≡ position (λ other. other == at) places.now }
{
    places.iter().position(|other| *other == at)
}

/// The next page to read of a table of which the first chunks are read, and of the next one the first pages: its chunk, and
/// its number there; `None` where none is left.
pub fn next_page<F: PageFile>(
    table: &HeldTable<Chunk<F>>,
    chunk: usize,
    page: u32,
) -> Option<(usize, u32)>
    requires stands { TableStands F.tells F.pages table.now }
    ensures leads { MatchOption result ((now : List (List Value)) → AreRowsTo table.now chunk page now → now ≡ rows_held table.now) (λ at. LeadsTo table.now chunk page at.0 at.1) }
    ensures there { IfSome result (λ at. (h : HeldChunks (Viewed F)) × (slice_get table.now.chunks at.0 ≡ Some h) × (at.1 < h.view.heap_pages) × (at.1 + 1 < 2 ^ 32)) }
{
    let chunks = table.chunks.as_slice();
    let mut at = chunk;
    let mut behind = page;
    while at < chunks.len() {
        if behind < chunks[at].view.get().heap_pages() {
            return Some((at, behind));
        }
        at += 1;
        behind = 0;
    }
    None
}
