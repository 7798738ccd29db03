// Heap pages, made row by row.
ghost use Rattle.std.specs.Prelude.{◌≡◌, ℕ, List, [], ◌∷◌, ◌++◌, ◌-◌, ◌<◌, ◌≤◌, true, false, length, IfOk, IfErr, OnOk, OnErr};
ghost use Rattle.hv_row.specs.Row.{RowFits, row_bytes};
ghost use Rattle.hv_row.specs.declared.value.Value.{Value};
ghost use Rattle.hv_row.specs.Spelling.{IsSpelling, IsUnspelt};
ghost use Rattle.hv_row.specs.Packed.{row_spelled};
ghost use Rattle.hv_page.specs.Layout.{IsBegun, WasBegun, used_by};
ghost use Rattle.hv_page.specs.Heap.{heap_kind};
ghost use Rattle.hv_heap.specs.Writer.{IsPlaced, page_at, page_now};

use hv_page::{HEAP_KIND, PAGE_BYTES, RowId, begin, push_down};
use hv_row::{Copied, MAX_ROW_BYTES, Row, RowFault, Schema, encode_onto};
use std::alloc::{AllocError, Global};
use std::boxed::Box;
use std::marker::Model;
use std::mem;

// A page at some place of a longer array: its start moves down by 2 bytes with each entry, and its entries stay.
type Room = Box<[u8; ROOM_BYTES], Global>;

// Where a page without an entry starts; one of 2,040 entries starts at 2.
const TOP: usize = 4082;

const ROOM_BYTES: usize = TOP + PAGE_BYTES;

/// Where a row was placed, and whether a page was finished before it.
#[derive(Clone, Copy, Debug, PartialEq, Eq)]
pub struct Placed {
    pub id: RowId,
    pub full: bool,
}

/// Rows packed into heap pages, page after page; contracts see the page that is being made.
#[derive(Drop)]
pub struct HeapWriter {
    pages: HeapPages,
    // The bytes of one row; its room serves each.
    entry: Vec<u8>,
}

impl Model for HeapWriter {
    ghost use Rattle.hv_heap.specs.Writer.{Packing};

    ghost Value = { Packing };

    ghost view = { λ w. w.pages };
}

impl HeapWriter {
    /// A writer that begins page 0. `Err` only for want of memory.
    pub fn new(alloc: Global, schema: &Schema) -> Result<HeapWriter, AllocError>
        ensures { IfOk result (λ w. (w.schema ≡ schema.now) × (w.added ≡ 0) × (w.number ≡ 0) × (w.entries ≡ [])) }
    {
        Ok(HeapWriter {
            pages: HeapPages::new(alloc, schema)?,
            entry: Vec::with_capacity(alloc, MAX_ROW_BYTES as usize)?,
        })
    }

    /// Adds a row that fits the schema, as one of at most 1,000,000: on the page where it fits, else on the next one.
    /// `TooLong` exactly where it takes more than 2,000 bytes; the writer is unchanged after each fault.
    pub fn add(&mut self, row: &Row) -> Result<Placed, RowFault>
        requires fits { RowFits self.old.schema row.now }
        requires few { self.old.added < 1000000 }
        ensures placed { IfOk result (λ placed. IsPlaced self.old self.new row.now placed) }
        ensures short { OnOk result (length (row_bytes self.old.schema row.now) ≤ 2000) }
        ensures cause { IfErr result (λ fault. IsUnspelt fault (length (row_bytes self.old.schema row.now))) }
        ensures kept { OnErr result (self.new ≡ self.old) }
    {
        self.entry.clear();
        encode_onto(&mut self.entry, row, self.pages.schema())?;
        Ok(self.pages.place(self.entry.as_slice()))
    }

    /// Adds the row that these bytes spell, at most 2,000 of them, by the bytes as they are: like `add`, and never fails.
    pub fn add_spelled(&mut self, entry: &[u8]) -> Placed
        requires spelling { IsSpelling self.old.schema entry.now }
        requires short { length entry.now ≤ 2000 }
        requires few { self.old.added < 1000000 }
        ensures { IsPlaced self.old self.new (row_spelled self.old.schema entry.now) result }
    {
        self.pages.place(entry)
    }

    /// The page on which the last row stands, as it is now.
    pub fn page(&self) -> &[u8]
        ensures { result.now ≡ page_now self.now }
    {
        self.pages.page()
    }

    /// The finished page before it, until the next row.
    pub fn done(&self) -> &[u8]
        ensures { result.now ≡ self.now.done }
    {
        self.pages.done()
    }
}

// The page that is being made, and the finished one before it.
#[derive(Drop)]
struct HeapPages {
    schema: Schema,
    added: u32,
    number: u32,
    count: u16,
    page: Room,
    page_from: usize,
    done: Room,
    done_from: usize,
}

impl Model for HeapPages {
    ghost use Rattle.std.specs.Prelude.{◌≡◌, ◌+◌, ◌*◌, ◌≤◌, length};
    ghost use Rattle.hv_page.specs.Fault.{entries_of};
    ghost use Rattle.hv_page.specs.Layout.{IsBegun};
    ghost use Rattle.hv_page.specs.Heap.{heap_kind};
    ghost use Rattle.hv_heap.specs.Writer.{Packing, page_at};

    ghost Value = { Packing };

    ghost view = { λ w. record { schema = w.schema; added = w.added; number = w.number; entries = entries_of (page_at w.page_from w.page.value); done = page_at w.done_from w.done.value } };

    ghost invariant = { λ w. IsBegun heap_kind w.number (page_at w.page_from w.page.value) (entries_of (page_at w.page_from w.page.value)) × (w.count ≡ length (entries_of (page_at w.page_from w.page.value))) × (w.page_from + 2 * w.count ≡ 4082) × (length w.page.value ≡ 8178) × (w.done_from ≤ 4082) × (length w.done.value ≡ 8178) × (w.number ≤ w.added) };
}

impl HeapPages {
    fn new(alloc: Global, schema: &Schema) -> Result<HeapPages, AllocError>
        ensures { IfOk result (λ w. (w.schema ≡ schema.now) × (w.added ≡ 0) × (w.number ≡ 0) × (w.entries ≡ [])) }
    {
        let mut page = Box::new(alloc, [0; ROOM_BYTES])?;
        begin_top(page.as_mut_slice(), 0);
        Ok(HeapPages {
            schema: schema.copy(alloc)?,
            added: 0,
            number: 0,
            count: 0,
            page,
            page_from: TOP,
            done: Box::new(alloc, [0; ROOM_BYTES])?,
            done_from: TOP,
        })
    }

    fn schema(&self) -> &Schema
        ensures { result.now ≡ self.now.schema }
    {
        &self.schema
    }

    // Places the bytes of a row, at most 2,000: on the page where they fit, else on the next one.
    fn place(&mut self, entry: &[u8]) -> Placed
        requires short { length entry.now ≤ 2000 }
        requires few { self.old.added < 1000000 }
        ensures { (row : List Value) → entry.now ≡ row_bytes self.old.schema row → IsPlaced self.old self.new row result }
    {
        let full = !put(self.page.as_mut_slice(), self.page_from, entry);
        if full {
            self.number += 1;
            self.count = 0;
            self.done_from = self.page_from;
            turn(&mut self.page, &mut self.done, self.number, entry);
            self.page_from = TOP - 2;
        } else {
            self.page_from -= 2;
        }
        let id = RowId {
            page: self.number,
            slot: self.count,
        };
        self.count += 1;
        self.added += 1;
        Placed { id, full }
    }

    fn page(&self) -> &[u8]
        ensures { result.now ≡ page_now self.now }
    {
        part(&self.page, self.page_from)
    }

    fn done(&self) -> &[u8]
        ensures { result.now ≡ self.now.done }
    {
        part(&self.done, self.done_from)
    }
}

// The page that starts at a place.
fn part(room: &Room, from: usize) -> &[u8]
    requires whole { length room.now.value ≡ 8178 }
    requires from { from ≤ 4082 }
    ensures { result.now ≡ page_at from room.now.value }
{
    &room.as_slice()[from..from + PAGE_BYTES]
}

// Finishes the page, and begins the one of this number with an entry.
fn turn(page: &mut Room, done: &mut Room, number: u32, entry: &[u8])
    requires whole { length done.old.value ≡ 8178 }
    requires short { length entry.now ≤ 2000 }
    ensures begun { IsBegun heap_kind number (page_at 4080 page.new.value) (entry.now ∷ []) }
    ensures long { length page.new.value ≡ 8178 }
    ensures finished { done.new.value ≡ page.old.value }
{
    mem::swap(page, done);
    begin_top(page.as_mut_slice(), number);
    // An entry of at most 2,000 bytes fits on a page of its own.
    put(page.as_mut_slice(), TOP, entry);
}

// Begins the page of this number at the top.
fn begin_top(room: &mut [u8], number: u32)
    requires { length room.old ≡ 8178 }
    ensures { IsBegun heap_kind number (page_at 4082 room.new) [] }
{
    begin(&mut room[TOP..], HEAP_KIND, number);
}

// Puts an entry on the page that starts at a place; it starts 2 bytes before then, and else is full and unchanged.
fn put(room: &mut [u8], from: usize, entry: &[u8]) -> bool
    requires begun { WasBegun (page_at from room.old) }
    requires within { (2 ≤ from) × (from ≤ 4082) × (length room.old ≡ 8178) }
    ensures pushed { (kind number : ℕ) (entries : List (List ℕ)) → IsBegun kind number (page_at from room.old) entries → result ≡ true → IsBegun kind number (page_at (from - 2) room.new) (entries ++ entry.now ∷ []) }
    ensures full { (kind number : ℕ) (entries : List (List ℕ)) → IsBegun kind number (page_at from room.old) entries → result ≡ false → 4096 < used_by (entries ++ entry.now ∷ []) }
    ensures same { result ≡ false → room.new ≡ room.old }
{
    push_down(&mut room[from - 2..from + PAGE_BYTES], entry)
}
