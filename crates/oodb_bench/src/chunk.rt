// A chunk made over files, and its pages hashed and written by a plain loop.
ghost use Rattle.std.specs.Prelude.{◌≡◌, [], ◌≤◌, length, Some, IsSome, OnOk};

use crate::work::{Bench, row};
use hv_chunk::ChunkBuilder;
use hv_dev::{Device, FileDevice, Order, PageSink};
use hv_page::digest;
use hv_row::{Copied, Schema, row_fits};
use std::alloc::{AllocError, Global};
use std::rt::Files;

const FOLDER: &str = "oodb_bench.data";

/// Makes a chunk of so many rows, at most 1,000,000, and gives how many pages it has.
pub fn build<R: Files + Clone + Drop>(
    alloc: Global,
    rt: R,
    bench: &Bench,
    rows: u32,
) -> Result<u64, AllocError>
    requires { rows ≤ 1000000 }
{
    let mut device = FileDevice::new(alloc, rt, Vec::from_slice(alloc, FOLDER.as_bytes())?)?;
    let mut port = device.port(alloc, Order::Fifo, 1)?;
    let mut builder = ChunkBuilder::new(alloc, bench.schema.copy(alloc)?)?;
    push_rows(alloc, &bench.schema, &mut builder, &mut port, rows)?;
    let Ok(chunk) = builder.finish(alloc, &mut port) else {
        return Err(AllocError);
    };
    let pages = hv_view::ChunkView::heap_pages(&chunk);
    Ok(u64::from(pages))
}

// Makes the rows one by one, and pushes each.
fn push_rows<P: PageSink>(
    alloc: Global,
    schema: &Schema,
    builder: &mut ChunkBuilder,
    port: &mut P,
    rows: u32,
) -> Result<(), AllocError>
    requires schema { builder.old.schema ≡ schema.now }
    requires few { rows ≤ 1000000 }
    requires empty { builder.old.rows ≡ [] }
    requires mine { P.written port.old ≡ Some builder.old.pages }
    ensures mine { OnOk result (P.written port.new ≡ Some builder.new.pages) }
{
    for number in 0..rows {
        let row = row(alloc, i64::from(number))?;
        // The test whether it fits counts to the making of the row: `make_rows` does it too.
        if !row_fits(row.as_slice(), schema.columns()) {
            return Ok(());
        }
        if builder.push(alloc, row, port).is_err() {
            return Err(AllocError);
        }
    }
    Ok(())
}

/// Makes so many rows one by one and tests whether each fits, as for a chunk, and gives how many fit.
pub fn make_rows(alloc: Global, schema: &Schema, rows: u32) -> Result<u64, AllocError> {
    let mut sum = 0u64;
    for number in 0..rows {
        let row = row(alloc, i64::from(number))?;
        if row_fits(row.as_slice(), schema.columns()) {
            sum = sum.wrapping_add(1);
        }
    }
    Ok(sum)
}

/// Hashes and writes so many pages by a plain loop.
pub fn write_plainly<R: Files + Clone + Drop>(
    alloc: Global,
    rt: R,
    bench: &Bench,
    pages: u32,
) -> Result<u64, AllocError> {
    let mut device = FileDevice::new(alloc, rt, Vec::from_slice(alloc, FOLDER.as_bytes())?)?;
    let mut port = device.port(alloc, Order::Fifo, 1)?;
    write_pages(alloc, &bench.page, &mut port, pages)?;
    match port.seal(alloc) {
        Ok(_) => Ok(u64::from(pages)),
        Err(_) => Err(AllocError),
    }
}

// Hashes a page and writes it, so many times.
fn write_pages<P: PageSink>(
    alloc: Global,
    page: &[u8],
    port: &mut P,
    pages: u32,
) -> Result<(), AllocError>
    requires page { length page.now ≡ 4096 }
    requires open { IsSome (P.written port.old) }
    ensures open { OnOk result (IsSome (P.written port.new)) }
{
    let mut digests = Vec::new(alloc);
    for _ in 0..pages {
        digests.push(digest(page))?;
        let Ok(()) = port.write(alloc, page) else {
            return Err(AllocError);
        };
    }
    Ok(())
}
