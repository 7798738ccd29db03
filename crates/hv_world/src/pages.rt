// The rows of a page of a chunk.
ghost use Rattle.std.specs.Prelude.{◌≡◌, [], ◌<◌, ◌++◌, length, get_or, OnOk};
ghost use Rattle.std.specs.List.{AllByRecursion};
ghost use Rattle.sha2.specs.Sha256.{sha256};
ghost use Rattle.hv_page.specs.Heap.{IsHeapEntry};
ghost use Rattle.hv_view.specs.View.{IsBuilt};
ghost use Rattle.hv_view.specs.Known.{ChunkIsKnown};
ghost use Rattle.hv_world.specs.Reads.{ReadsOn, BroughtBytes, first_bytes};
ghost use Rattle.hv_world.specs.Damage.{ReadsChunk};
ghost use Rattle.hv_world.specs.RowsRead.{AddsRows, AddsPage, IsAsWritten};

use crate::access::PageAccess;
use hv_dev::Port;
use hv_heap::row_at;
use hv_model::{Failure, Why};
use hv_page::{HeapView, digest, parse_heap};
use hv_row::{Rows, Schema};
use hv_view::ChunkView;
use std::alloc::{AllocError, Global};
use std::sync::Arc;

/// Puts the rows of a page of a chunk of that number behind the rows.
pub fn read_rows<P: Port, C: ChunkView<File = P::File>>(
    alloc: Global,
    number: u32,
    chunk: &C,
    page: u32,
    access: &mut PageAccess<P>,
    out: &mut Rows,
) -> Result<(), Failure>
    requires built { IsBuilt P.File.tells P.File.pages (C.viewed chunk.now).schema (C.viewed chunk.now).rows (C.viewed chunk.now) }
    requires within { page < (C.viewed chunk.now).heap_pages }
    requires room { 0 < (P.reading access.old.port).room }
    requires idle { (P.reading access.old.port).in_flight ≡ [] }
    ensures rows { OnOk result (ChunkIsKnown P.File.tells (C.viewed chunk.now) (P.reading access.new.port).landings → AddsPage (C.viewed chunk.now) page out.old out.new) }
    ensures reads_chunk { ReadsChunk P.File.tells number (C.viewed chunk.now) (P.reading access.old.port) (P.reading access.new.port) result }
    ensures reads { ReadsOn (P.reading access.old.port) (P.reading access.new.port) }
    ensures faults { P.write_faults access.new.port ≡ P.write_faults access.old.port }
    ensures kept { P.written access.new.port ≡ P.written access.old.port }
{
    read_page(number, chunk, page, access)?;
    let schema = chunk.schema();
    match parse_heap(access.bytes(), page, schema) {
        Ok(view) => push_rows(alloc, &view, schema, out)?,
        Err(form) => {
            return Err(Failure::Damaged {
                chunk: number,
                page,
                why: Why::Form { byte: form.byte },
            });
        }
    }
    Ok(())
}

// Reads a page of the chunk into the frame: it has the digest that is recorded for it.
fn read_page<P: Port, C: ChunkView<File = P::File>>(
    number: u32,
    chunk: &C,
    page: u32,
    access: &mut PageAccess<P>,
) -> Result<(), Failure>
    requires built { IsBuilt P.File.tells P.File.pages (C.viewed chunk.now).schema (C.viewed chunk.now).rows (C.viewed chunk.now) }
    requires within { page < (C.viewed chunk.now).heap_pages }
    requires room { 0 < (P.reading access.old.port).room }
    requires idle { (P.reading access.old.port).in_flight ≡ [] }
    ensures digest { OnOk result (sha256 (first_bytes access.new.frames.items) ≡ get_or (C.viewed chunk.now).digests page []) }
    ensures page { OnOk result (ChunkIsKnown P.File.tells (C.viewed chunk.now) (P.reading access.new.port).landings → IsAsWritten (C.viewed chunk.now) page (first_bytes access.new.frames.items)) }
    ensures brought { OnOk result (BroughtBytes (P.reading access.old.port).landings (P.reading access.new.port).landings (C.viewed chunk.now).file page (first_bytes access.new.frames.items)) }
    ensures reads_chunk { ReadsChunk P.File.tells number (C.viewed chunk.now) (P.reading access.old.port) (P.reading access.new.port) result }
    ensures reads { ReadsOn (P.reading access.old.port) (P.reading access.new.port) }
    ensures faults { P.write_faults access.new.port ≡ P.write_faults access.old.port }
    ensures kept { P.written access.new.port ≡ P.written access.old.port }
{
    // The handle first: nothing wants memory once the read is under way.
    let file = Arc::try_clone(chunk.file())?;
    if !access.read(file, page) {
        return Err(Failure::Read);
    }
    let (recorded, found) = (chunk.digest_of(page), digest(access.bytes()));
    if found != recorded {
        return Err(Failure::Damaged {
            chunk: number,
            page,
            why: Why::Digest { recorded, found },
        });
    }
    Ok(())
}

// Puts the rows of a page behind the rows.
fn push_rows(
    alloc: Global,
    view: &HeapView<'_>,
    schema: &Schema,
    out: &mut Rows,
) -> Result<(), AllocError>
    requires parsed { AllByRecursion (IsHeapEntry schema.now) view.now }
    ensures { OnOk result (AddsRows schema.now view.now out.old out.new) }
{
    for slot in 0..view.count() {
        out.push(row_at(alloc, view, slot, schema)?)?;
    }
    Ok(())
}
