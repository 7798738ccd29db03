// Chunks over devices in memory and over files; the pages that are wanted are packed anew, 408 rows of one number to a page.
ghost use Rattle.std.specs.Prelude.{◌≡◌, ◌+◌, ◌<◌, ◌≤◌, [], length, true, Some, IfOk, IfErr, OnOk};
ghost use Rattle.hv_row.specs.Row.{RowFits};
ghost use Rattle.hv_chunk.specs.declared.fault.BuildFault.TheVariants.{TooLong};

use crate::files::{device_in, remove_file};
use crate::memory::failing;
use crate::packed::{ROWS, page_of};
use crate::reads::read_run;
use hv_chunk::{BuildFault, Chunk, ChunkBuilder};
use hv_dev::{CleanDevice, Device, FailKind, Order, PageSink, Port};
use hv_page::digest;
use hv_row::{Bytes, ColType, Column, Columns, Copied, Row, Schema, Value, check, row_fits};
use hv_view::ChunkView;
use std::alloc::Global;
use std::fs;
use std::process::Abort;

// A schema of so many columns of a type, named by their places.
fn schema_of(rt: &impl Abort, alloc: Global, kind: ColType, count: u8) -> Schema {
    let mut columns = Columns::new(alloc);
    for at in 0..count {
        let column = Column::plain(alloc, &[at], kind).expect(rt, "a column");
        columns.push(column).expect(rt, "room for a column");
    }
    Schema::checked(columns).expect(rt, "a schema")
}

// A builder without a row.
fn builder_of(rt: &impl Abort, alloc: Global, schema: &Schema) -> ChunkBuilder
    ensures { result ≡ record { schema = schema.now; rows = []; pages = [] } }
{
    let schema = schema.copy(alloc).expect(rt, "a schema's copy");
    ChunkBuilder::new(alloc, schema).expect(rt, "a builder")
}

// A row of one number, which fits a schema of one.
fn row_of(rt: &impl Abort, alloc: Global, schema: &Schema, number: u32) -> Row
    ensures { RowFits schema.now result }
{
    let mut row = Row::new(alloc);
    let value = Value::Int(i64::from(number));
    row.push(value).expect(rt, "room for a value");
    assert!(rt; row_fits(row.as_slice(), schema.columns()));
    row
}

// Pushes so many rows of one number, from 0 on: 408 fill a page, which is written at the next.
fn push_rows<P: PageSink>(
    rt: &impl Abort,
    alloc: Global,
    port: &mut P,
    builder: &mut ChunkBuilder,
    schema: &Schema,
    count: u32,
) -> Result<(), BuildFault>
    requires schema { builder.old.schema ≡ schema.now }
    requires none { builder.old.rows ≡ [] }
    requires few { count ≤ 1000000 }
    requires mine { P.written port.old ≡ Some builder.old.pages }
    ensures rows { OnOk result (builder.new.schema ≡ schema.now) }
    ensures mine { OnOk result (P.written port.new ≡ Some builder.new.pages) }
    ensures abandoned { IfErr result (λ fault. ¬ (fault ≡ TooLong) → P.written port.new ≡ Some []) }
    ensures kept { P.reading port.new ≡ P.reading port.old }
{
    for number in 0..count {
        let row = row_of(rt, alloc, schema, number);
        builder.push(alloc, row, port)?;
        assert!(rt; builder.pages_written() == number / ROWS);
    }
    Ok(())
}

// Builds a chunk of so many rows of one number, from 0 on.
fn build<P: PageSink>(
    rt: &impl Abort,
    alloc: Global,
    port: &mut P,
    schema: &Schema,
    count: u32,
) -> Result<Chunk<P::File>, BuildFault>
    requires few { count ≤ 1000000 }
    requires open { P.written port.old ≡ Some [] }
    ensures next { OnOk result (P.written port.new ≡ Some []) }
    ensures abandoned { IfErr result (λ fault. ¬ (fault ≡ TooLong) → P.written port.new ≡ Some []) }
    ensures kept { P.reading port.new ≡ P.reading port.old }
    ensures pages { IfOk result (λ chunk. P.File.tells ≡ true → length (P.File.pages chunk.file) ≡ chunk.heap_pages) }
{
    let mut builder = builder_of(rt, alloc, schema);
    match push_rows(rt, alloc, port, &mut builder, schema, count) {
        Ok(()) => builder.finish(alloc, port),
        Err(fault) => Err(fault),
    }
}

// Whether a page of a chunk of so many rows is packed so, and its digest is recorded.
fn is_packed<P: Port>(
    rt: &impl Abort,
    alloc: Global,
    port: &mut P,
    chunk: &Chunk<P::File>,
    page: u32,
    count: u32,
) -> bool
    requires within { page < chunk.now.heap_pages }
    requires digest { page < length chunk.now.digests }
    requires pages { P.File.tells ≡ true → length (P.File.pages chunk.now.file) ≡ chunk.now.heap_pages }
    requires room { 1 ≤ (P.reading port.old).room }
    requires none { (P.reading port.old).in_flight ≡ [] }
    ensures room { (P.reading port.new).room ≡ (P.reading port.old).room }
    ensures none { (P.reading port.new).in_flight ≡ [] }
{
    let seen = read_run(rt, alloc, port, chunk.file(), page, 1);
    let Some(read) = seen.first() else {
        return false;
    };
    let is_wanted = read.landed && read.bytes.as_slice() == page_of(page, count).as_slice();
    is_wanted && chunk.digest_of(page) == digest(&read.bytes)
}

// Whether a chunk has so many rows, and each of its pages is packed so.
fn is_read_back<P: Port>(
    rt: &impl Abort,
    alloc: Global,
    port: &mut P,
    chunk: &Chunk<P::File>,
    count: u32,
) -> bool
    requires pages { P.File.tells ≡ true → length (P.File.pages chunk.now.file) ≡ chunk.now.heap_pages }
    requires room { 1 ≤ (P.reading port.old).room }
    requires none { (P.reading port.old).in_flight ≡ [] }
{
    for page in 0..chunk.heap_pages() {
        if !is_packed(rt, alloc, port, chunk, page, count) {
            return false;
        }
    }
    chunk.row_count() == count
}

// Whether a chunk of so many rows has so many pages, and all are read back.
fn is_built<D: Device>(
    rt: &impl Abort,
    alloc: Global,
    device: &mut D,
    count: u32,
    pages: u32,
) -> bool
    requires { count ≤ 1000000 }
{
    let schema = schema_of(rt, alloc, ColType::Int, 1);
    let mut port = device.port(alloc, Order::Fifo, 1).expect(rt, "a port");
    let chunk = build(rt, alloc, &mut port, &schema, count).expect(rt, "a chunk");
    chunk.heap_pages() == pages && is_read_back(rt, alloc, &mut port, &chunk, count)
}

// How many rows are pushed, and how many pages they take.
const PAGES: [(u32, u32); 5] = [(0, 0), (1, 1), (408, 1), (409, 2), (100_000, 246)];

#[test]
fn packs_408_rows_to_a_page(rt: HostRuntime) {
    for (count, pages) in PAGES {
        assert!(rt;
            is_built(&rt, rt.alloc(), &mut CleanDevice::new(), count, pages),
            "{count}"
        );
    }
}

// The folder has one file alone.
#[test]
fn reads_a_chunk_of_files_back(rt: HostRuntime) {
    let mut device = device_in(&rt, rt, b"hv_chunk_files_test");
    assert!(rt; is_built(&rt, rt.alloc(), &mut device, 1_000, 3));
    remove_file(&rt, rt, "hv_chunk_files_test/0-0.pages");
    fs::remove_dir(&rt, "hv_chunk_files_test").expect(&rt, "an empty folder's end");
}

// Whether 409 rows fail once for a write, and then are built on the same port.
fn goes_on<P: PageSink>(rt: &impl Abort, alloc: Global, port: &mut P, schema: &Schema) -> bool
    requires { P.written port.old ≡ Some [] }
{
    match build(rt, alloc, port, schema, 409) {
        Err(BuildFault::Write) => {}
        _ => return false,
    }
    match build(rt, alloc, port, schema, 409) {
        Ok(chunk) => chunk.heap_pages() == 2,
        Err(_) => false,
    }
}

const FAILS: [(FailKind, u32); 3] = [
    (FailKind::Write, 1),
    (FailKind::Write, 2),
    (FailKind::Seal, 1),
];

// Whether it does so over a device that fails at one call.
fn goes_on_over(rt: &impl Abort, alloc: Global, kind: FailKind, nth: u32) -> bool {
    let schema = schema_of(rt, alloc, ColType::Int, 1);
    let mut device = failing(rt, alloc, kind, nth);
    let mut port = device.port(alloc, Order::Fifo, 1).expect(rt, "a port");
    goes_on(rt, alloc, &mut port, &schema)
}

#[test]
fn goes_on_after_a_fault(rt: HostRuntime) {
    for (kind, nth) in FAILS {
        assert!(rt; goes_on_over(&rt, rt.alloc(), kind, nth));
    }
}

// Eight texts of so many bytes, each of which takes a byte more: 2,000 bytes for 249, and 2,008 for 250.
fn texts_of(rt: &impl Abort, alloc: Global, bytes: usize) -> Row
    requires { bytes ≤ 255 }
{
    let mut row = Row::new(alloc);
    for _ in 0..8u8 {
        let text = Bytes::from_slice(alloc, &[b'a'; 255][..bytes]).expect(rt, "a text");
        row.push(Value::Text(text)).expect(rt, "room for a value");
    }
    row
}

// Pushes a row of eight texts, and says whether it isn't too long.
fn push_texts<P: PageSink>(
    rt: &impl Abort,
    alloc: Global,
    port: &mut P,
    builder: &mut ChunkBuilder,
    schema: &Schema,
    bytes: usize,
) -> bool
    requires bytes { bytes ≤ 255 }
    requires schema { builder.old.schema ≡ schema.now }
    requires few { length builder.old.rows < 1000000 }
    requires mine { P.written port.old ≡ Some builder.old.pages }
    ensures same { builder.new.schema ≡ schema.now }
    ensures few { length builder.new.rows ≤ length builder.old.rows + 1 }
    ensures mine { P.written port.new ≡ Some builder.new.pages }
{
    let row = texts_of(rt, alloc, bytes);
    assert!(rt; row_fits(row.as_slice(), schema.columns()));
    match builder.push(alloc, row, port) {
        Ok(()) => true,
        Err(BuildFault::TooLong) => false,
        Err(_) => rt.panic("no row more"),
    }
}

#[test]
fn goes_on_after_a_long_row(rt: HostRuntime) {
    let alloc = rt.alloc();
    let schema = schema_of(&rt, alloc, ColType::Text, 8);
    let mut device = CleanDevice::new();
    let mut port = device.port(alloc, Order::Fifo, 1).expect(&rt, "a port");
    let mut builder = builder_of(&rt, alloc, &schema);
    assert!(rt; !push_texts(&rt, alloc, &mut port, &mut builder, &schema, 250));
    assert!(rt; push_texts(&rt, alloc, &mut port, &mut builder, &schema, 249));
    let chunk = builder.finish(alloc, &mut port).expect(&rt, "a chunk");
    assert!(rt; chunk.row_count() == 1 && chunk.heap_pages() == 1);
}

// Pushes so many rows of one number, from 0 on, by their bytes.
fn push_bytes<P: PageSink>(
    rt: &impl Abort,
    alloc: Global,
    port: &mut P,
    builder: &mut ChunkBuilder,
    schema: &Schema,
    count: u32,
)
    requires schema { builder.old.schema ≡ schema.now }
    requires none { builder.old.rows ≡ [] }
    requires few { count ≤ 1000000 }
    requires mine { P.written port.old ≡ Some builder.old.pages }
    ensures mine { P.written port.new ≡ Some builder.new.pages }
    ensures kept { P.reading port.new ≡ P.reading port.old }
{
    for number in 0..count {
        let bytes = i64::from(number).to_be_bytes();
        assert!(rt; check(&bytes, schema).is_ok());
        builder
            .push_spelled(alloc, &bytes, port)
            .expect(rt, "room for a row");
    }
}

#[test]
fn packs_rows_by_their_bytes(rt: HostRuntime) {
    let alloc = rt.alloc();
    let schema = schema_of(&rt, alloc, ColType::Int, 1);
    let mut device = CleanDevice::new();
    let mut port = device.port(alloc, Order::Fifo, 1).expect(&rt, "a port");
    let mut builder = builder_of(&rt, alloc, &schema);
    push_bytes(&rt, alloc, &mut port, &mut builder, &schema, 409);
    assert!(rt; builder.pages_written() == 1);
    let chunk = builder.finish(alloc, &mut port).expect(&rt, "a chunk");
    assert!(rt; chunk.heap_pages() == 2 && is_read_back(&rt, alloc, &mut port, &chunk, 409));
}
