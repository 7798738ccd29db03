// A chunk in the making.
ghost use Rattle.std.specs.Prelude.{◌≡◌, ℕ, List, Some, Err, [], ◌∷◌, ◌++◌, ◌<◌, ◌≤◌, length, IfOk, IfErr, IsSome, OnOk, OnErr};
ghost use Rattle.hv_row.specs.Row.{RowFits, row_bytes};
ghost use Rattle.hv_row.specs.Spelling.{IsSpelling};
ghost use Rattle.hv_row.specs.Packed.{row_spelled};
ghost use Rattle.hv_dev.specs.Fault.{IsCaused};
ghost use Rattle.hv_dev.specs.declared.sink.PutFault.TheVariants as unput;
ghost use Rattle.hv_heap.specs.Writer.{page_now};
ghost use Rattle.hv_view.specs.View.{IsBuilt};
ghost use Rattle.hv_chunk.specs.Building.{Building, IsBuildFault, WritesOne};
ghost use Rattle.hv_chunk.specs.Keeping.{IsKept, IsWhole};
ghost use Rattle.hv_chunk.specs.declared.fault.BuildFault.TheVariants.{Memory, TooLong};

use crate::{BuildFault, Chunk};
use hv_dev::{PageSink, Past, PutFault, as_page};
use hv_heap::HeapWriter;
use hv_page::{PAGE_BYTES, digest};
use hv_row::{Digest, Row, RowFault, Schema, encode_onto};
use std::alloc::{AllocError, Global};
use std::marker::Model;
use std::mem;

/// Makes a chunk row by row: pages are written as they are full, over the sink's open file.
#[derive(Drop)]
pub struct ChunkBuilder {
    writer: HeapWriter,
    digests: Vec<Digest>,
    row_count: u32,
    pages: Past<[u8; PAGE_BYTES]>,
    schema: Schema,
    // The bytes of one row; its room serves each.
    entry: Vec<u8>,
}

impl Model for ChunkBuilder {
    ghost use Rattle.hv_chunk.specs.Building.{Building, rows_on};

    ghost Value = { Building };

    // The rows are those that the pages spell.
    ghost view = { λ b. record { schema = b.schema; rows = rows_on b.schema b.pages b.writer.entries; pages = b.pages } };

    ghost use Rattle.hv_chunk.specs.Keeping.{IsKept};

    ghost invariant = { λ b. IsKept b.writer (record { schema = b.schema; rows = rows_on b.schema b.pages b.writer.entries; pages = b.pages }) b.digests.items b.row_count };
}

impl ChunkBuilder {
    /// A builder without a row. `Err` only for want of memory.
    pub fn new(alloc: Global, schema: Schema) -> Result<ChunkBuilder, AllocError>
        ensures { IfOk result (λ b. b ≡ record { schema = schema; rows = []; pages = [] }) }
    {
        Ok(ChunkBuilder {
            writer: HeapWriter::new(alloc, &schema)?,
            digests: Vec::new(alloc),
            row_count: 0,
            pages: Past::new(),
            schema,
            entry: Vec::new(alloc),
        })
    }

    /// Puts a row that fits the schema behind the others, as one of at most 1,000,000; a page that is full is written.
    /// `TooLong` exactly where the row takes more than 2,000 bytes, and then nothing changes. After another fault the
    /// open file is abandoned, and the builder may only be dropped.
    pub fn push<P: PageSink>(
        &mut self,
        alloc: Global,
        row: Row,
        port: &mut P,
    ) -> Result<(), BuildFault>
        requires fits { RowFits self.old.schema row }
        requires few { length self.old.rows < 1000000 }
        // The pages written since the last seal or abandon are this builder's.
        requires mine { P.written port.old ≡ Some self.old.pages }
        ensures pushed { OnOk result ((self.new.rows ≡ self.old.rows ++ row ∷ []) × (self.new.schema ≡ self.old.schema)) }
        ensures mine_still { OnOk result (P.written port.new ≡ Some self.new.pages) }
        ensures calm { OnOk result (P.write_faults port.new ≡ P.write_faults port.old) }
        ensures short { OnOk result (length (row_bytes self.old.schema row) ≤ 2000) }
        ensures cause { IfErr result (λ fault. IsBuildFault fault (length (row_bytes self.old.schema row)) (P.write_faults port.old) (P.write_faults port.new)) }
        ensures unchanged { result ≡ Err TooLong → (self.new ≡ self.old) × (P.written port.new ≡ P.written port.old) }
        ensures abandoned { IfErr result (λ fault. ¬ (fault ≡ TooLong) → P.written port.new ≡ Some []) }
        ensures kept { P.reading port.new ≡ P.reading port.old }
    {
        let mut entry = mem::replace(&mut self.entry, Vec::new(alloc));
        entry.clear();
        match encode_onto(&mut entry, &row, &self.schema) {
            Ok(()) => {}
            Err(RowFault::TooLong { .. }) => return Err(BuildFault::TooLong),
            Err(RowFault::Memory) => return Err(give_up(port, PutFault::Memory)),
        }
        self.push_spelled(alloc, entry.as_slice(), port)?;
        self.entry = entry;
        Ok(())
    }

    /// Puts the row that these bytes spell, at most 2,000 of them, behind the others, by the bytes as they are: as `push`
    /// does, and never `TooLong`. After a fault the open file is abandoned, and the builder may only be dropped.
    pub fn push_spelled<P: PageSink>(
        &mut self,
        alloc: Global,
        entry: &[u8],
        port: &mut P,
    ) -> Result<(), BuildFault>
        requires spelling { IsSpelling self.old.schema entry.now }
        requires short { length entry.now ≤ 2000 }
        requires few { length self.old.rows < 1000000 }
        // The pages written since the last seal or abandon are this builder's.
        requires mine { P.written port.old ≡ Some self.old.pages }
        ensures pushed { OnOk result ((self.new.rows ≡ self.old.rows ++ row_spelled self.old.schema entry.now ∷ []) × (self.new.schema ≡ self.old.schema)) }
        // A page that is written has the rows before this one.
        ensures one_page { OnOk result (WritesOne self.old self.new) }
        ensures mine_still { OnOk result (P.written port.new ≡ Some self.new.pages) }
        ensures calm { OnOk result (P.write_faults port.new ≡ P.write_faults port.old) }
        ensures cause { IfErr result (λ fault. IsBuildFault fault (length entry.now) (P.write_faults port.old) (P.write_faults port.new)) }
        ensures abandoned { OnErr result (P.written port.new ≡ Some []) }
        ensures kept { P.reading port.new ≡ P.reading port.old }
    {
        // Room for a digest first: nothing wants memory once the row is placed.
        let Ok(()) = self.digests.reserve(1) else {
            return Err(give_up(port, PutFault::Memory));
        };
        let placed = self.writer.add_spelled(entry);
        self.row_count += 1;
        if placed.full {
            let page = self.writer.done();
            self.digests.push_reserved(digest(page));
            self.pages.note(as_page(page));
            return put(port, alloc, page);
        }
        Ok(())
    }

    /// How many pages it has written: each `push` writes at most one.
    pub fn pages_written(&self) -> u32
        ensures { result ≡ length self.now.pages }
    {
        self.digests.len() as u32
    }

    /// Writes the last page, seals the file and gives the chunk of the rows that were pushed. After a fault the open
    /// file is abandoned; it is never `TooLong`.
    pub fn finish<P: PageSink>(
        self,
        alloc: Global,
        port: &mut P,
    ) -> Result<Chunk<P::File>, BuildFault>
        requires mine { P.written port.old ≡ Some self.pages }
        ensures built { IfOk result (λ chunk. IsBuilt P.File.tells P.File.pages self.schema self.rows chunk) }
        ensures next { P.written port.new ≡ Some [] }
        ensures calm { OnOk result (P.write_faults port.new ≡ P.write_faults port.old) }
        ensures cause { IfErr result (λ fault. IsBuildFault fault 0 (P.write_faults port.old) (P.write_faults port.new)) }
        ensures kept { P.reading port.new ≡ P.reading port.old }
    {
        let ChunkBuilder {
            writer,
            mut digests,
            row_count,
            mut pages,
            schema,
            entry: _,
        } = self;
        put_last(port, alloc, &writer, &mut digests, &mut pages, row_count)?;
        match port.seal(alloc) {
            Ok(file) => Ok(Chunk {
                file,
                schema,
                heap_pages: digests.len() as u32,
                digests,
                row_count,
                pages,
            }),
            Err(fault) => Err(give_up(port, fault)),
        }
    }
}

// Puts a page behind those of the open file, which is given up where that fails.
fn put<P: PageSink>(port: &mut P, alloc: Global, page: &[u8]) -> Result<(), BuildFault>
    requires page { length page.now ≡ 4096 }
    requires open { IsSome (P.written port.old) }
    ensures more { OnOk result ((pages : List (List ℕ)) → P.written port.old ≡ Some pages → P.written port.new ≡ Some (pages ++ page.now ∷ [])) }
    ensures abandoned { OnErr result (P.written port.new ≡ Some []) }
    ensures calm { OnOk result (P.write_faults port.new ≡ P.write_faults port.old) }
    ensures cause { (long : ℕ) → long ≤ 2000 → IfErr result (λ fault. IsBuildFault fault long (P.write_faults port.old) (P.write_faults port.new)) }
    ensures kept { P.reading port.new ≡ P.reading port.old }
{
    match port.write(alloc, page) {
        Ok(()) => Ok(()),
        Err(fault) => Err(give_up(port, fault)),
    }
}

// Puts the page that is being made and its digest behind the others, and notes it, where there is a row.
fn put_last<P: PageSink>(
    port: &mut P,
    alloc: Global,
    writer: &HeapWriter,
    digests: &mut Vec<Digest>,
    pages: &mut Past<[u8; PAGE_BYTES]>,
    row_count: u32,
) -> Result<(), BuildFault>
    requires page { length (page_now writer.now) ≡ 4096 }
    requires open { IsSome (P.written port.old) }
    ensures whole { OnOk result ((building : Building) → IsKept writer.now building digests.old.items row_count → P.written port.old ≡ Some building.pages → IsWhole building digests.new.items (P.written port.new)) }
    ensures noted { OnOk result (P.written port.old ≡ Some pages.old → P.written port.new ≡ Some pages.new) }
    ensures abandoned { OnErr result (P.written port.new ≡ Some []) }
    ensures calm { OnOk result (P.write_faults port.new ≡ P.write_faults port.old) }
    ensures cause { IfErr result (λ fault. IsBuildFault fault 0 (P.write_faults port.old) (P.write_faults port.new)) }
    ensures kept { P.reading port.new ≡ P.reading port.old }
{
    if row_count == 0 {
        return Ok(());
    }
    let page = writer.page();
    let Ok(()) = digests.push(digest(page)) else {
        return Err(give_up(port, PutFault::Memory));
    };
    pages.note(as_page(page));
    put(port, alloc, page)
}

// Gives up the open file, and says why.
fn give_up<P: PageSink>(port: &mut P, fault: PutFault) -> BuildFault
    ensures next { P.written port.new ≡ Some [] }
    ensures calm { P.write_faults port.new ≡ P.write_faults port.old }
    ensures cause { (long before : ℕ) → long ≤ 2000 → IsCaused fault before (P.write_faults port.old) → IsBuildFault result long before (P.write_faults port.old) }
    ensures memory { fault ≡ unput.Memory → result ≡ Memory }
    ensures kept { P.reading port.new ≡ P.reading port.old }
{
    port.abandon();
    match fault {
        PutFault::Failed => BuildFault::Write,
        PutFault::Memory => BuildFault::Memory,
    }
}
