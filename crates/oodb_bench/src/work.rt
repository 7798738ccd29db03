// The kinds of work on a page.
ghost use Rattle.std.specs.Prelude.{◌≡◌, length};
ghost use Rattle.hv_page.specs.Layout.{WasBegun};

use hv_page::{HEAP_KIND, PAGE_BYTES, begin, digest, parse_heap, push};
use hv_row::{
    Bytes, ColType, Column, Columns, DecodeFault, Row, Rows, Schema, Value, decode, encode,
    row_fits,
};
use std::alloc::{AllocError, Global};

const ROWS: i64 = 214;

/// What is done with the page or its rows.
#[derive(Clone, Copy, Debug)]
pub enum Work {
    /// Nothing but the making of the page.
    Nothing,
    /// The page's digest.
    Digest,
    /// The page is parsed, and each row is looked at.
    Walk,
    /// Each row is encoded.
    Encode,
    /// Each row is decoded.
    Decode,
    /// The page is made of its entries.
    Push,
}

impl Work {
    /// The work of this name.
    pub fn named(name: &str) -> Option<Work> {
        match name {
            "nothing" => Some(Work::Nothing),
            "digest" => Some(Work::Digest),
            "walk" => Some(Work::Walk),
            "encode" => Some(Work::Encode),
            "decode" => Some(Work::Decode),
            "push" => Some(Work::Push),
            _ => None,
        }
    }
}

/// A full page, with its rows and their bytes.
#[derive(Drop)]
pub struct Bench {
    pub schema: Schema,
    rows: Rows,
    entries: Vec<Bytes>,
    pub page: [u8; PAGE_BYTES],
}

impl Bench {
    pub fn new(alloc: Global) -> Result<Bench, AllocError> {
        let schema = Schema::checked(columns(alloc)?).ok_or(AllocError)?;
        let rows = rows(alloc)?;
        let mut entries = Vec::with_capacity(alloc, rows.len())?;
        for row in rows.as_slice() {
            entries.push(Bytes::from_vec(encoded(alloc, row, &schema)?))?;
        }
        let mut page = [0; PAGE_BYTES];
        fill(&mut page, entries.as_slice());
        Ok(Bench {
            schema,
            rows,
            entries,
            page,
        })
    }

    /// Does the work so many times, and gives a sum over what it did.
    pub fn run(&self, alloc: Global, work: Work, times: u32) -> Result<u64, AllocError> {
        let mut sum = 0u64;
        for _ in 0..times {
            sum = sum.wrapping_add(self.once(alloc, work)?);
        }
        Ok(sum)
    }

    #[inline(never)]
    fn once(&self, alloc: Global, work: Work) -> Result<u64, AllocError> {
        match work {
            Work::Nothing => Ok(0),
            Work::Digest => Ok(u64::from(digest(&self.page).as_slice()[0])),
            Work::Walk => Ok(walk(&self.page, &self.schema)),
            Work::Encode => encode_all(alloc, self.rows.as_slice(), &self.schema),
            Work::Decode => decode_all(alloc, self.entries.as_slice(), &self.schema),
            Work::Push => {
                let mut page = [0; PAGE_BYTES];
                fill(&mut page, self.entries.as_slice());
                Ok(u64::from(page[4095]))
            }
        }
    }
}

fn columns(alloc: Global) -> Result<Columns, AllocError> {
    let mut columns = Columns::with_capacity(alloc, 2)?;
    for (name, kind) in [("a", ColType::Int), ("b", ColType::Text)] {
        columns.push(Column::plain(alloc, name.as_bytes(), kind)?)?;
    }
    Ok(columns)
}

fn rows(alloc: Global) -> Result<Rows, AllocError> {
    let mut rows = Rows::with_capacity(alloc, ROWS as usize)?;
    for number in 0..ROWS {
        rows.push(row(alloc, number)?)?;
    }
    Ok(rows)
}

/// A row of this number and a text of 8 bytes.
pub fn row(alloc: Global, number: i64) -> Result<Row, AllocError> {
    let mut row = Row::with_capacity(alloc, 2)?;
    row.push(Value::Int(number))?;
    row.push(Value::Text(Bytes::from_slice(alloc, b"abcdefgh")?))?;
    Ok(row)
}

// A page of these entries, as far as they fit.
fn fill(page: &mut [u8], entries: &[Bytes])
    requires { length page.old ≡ 4096 }
{
    begin(page, HEAP_KIND, 0);
    push_all(page, entries);
}

#[inline(never)]
fn push_all(page: &mut [u8], entries: &[Bytes])
    requires { WasBegun page.old }
    ensures { WasBegun page.new }
{
    for entry in entries {
        let _pushed = push(page, entry.as_slice());
    }
}

fn walk(page: &[u8], schema: &Schema) -> u64
    requires { length page.now ≡ 4096 }
{
    let Ok(view) = parse_heap(page, 0, schema) else {
        return 0;
    };
    let mut sum = 0u64;
    for slot in 0..view.count() {
        if let [.., last] = view.row(slot) {
            sum = sum.wrapping_add(u64::from(*last));
        }
    }
    sum
}

// The bytes of a row; the test whether it fits counts among the work.
fn encoded(alloc: Global, row: &Row, schema: &Schema) -> Result<Vec<u8>, AllocError> {
    if !row_fits(row.as_slice(), schema.columns()) {
        return Ok(Vec::new(alloc));
    }
    encode(alloc, row, schema).map_err(|_| AllocError)
}

fn encode_all(alloc: Global, rows: &[Row], schema: &Schema) -> Result<u64, AllocError> {
    let mut sum = 0u64;
    for row in rows {
        sum = sum.wrapping_add(encoded(alloc, row, schema)?.len() as u64);
    }
    Ok(sum)
}

fn decode_all(alloc: Global, entries: &[Bytes], schema: &Schema) -> Result<u64, AllocError> {
    let mut sum = 0u64;
    for entry in entries {
        if entry.len() > PAGE_BYTES {
            return Ok(0);
        }
        match decode(alloc, entry.as_slice(), schema) {
            Ok(row) => sum = sum.wrapping_add(row.len() as u64),
            Err(DecodeFault::Form { byte }) => sum = sum.wrapping_add(u64::from(byte)),
            Err(DecodeFault::Memory) => return Err(AllocError),
        }
    }
    Ok(sum)
}
