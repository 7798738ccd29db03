// Schemas and pages that the tests are about.
ghost use Rattle.std.specs.Prelude.{◌≤◌, ◌<◌, length};

use hv_page::PAGE_BYTES;
use hv_row::{ColType, Column, Columns, Schema};
use std::alloc::Global;
use std::test::Fail;

// The page 0 with the one row (1) of a column of numbers, up to its last byte that isn't 0.
pub const ONE_ROW: [u8; 26] = [
    0x4f, 0x44, 1, 1, 0, 1, 0, 0x1a, 0, 0, 0, 0, 0, 0, 0, 0, 0, 0x12, 0, 0, 0, 0, 0, 0, 0, 1,
];

const NAMES: &[u8] = b"abcdefgh";

// Numbers for an `i`, else texts.
fn kind_of(letter: u8) -> ColType {
    if letter == b'i' {
        ColType::Int
    } else {
        ColType::Text
    }
}

// The schema of as many columns as `kinds` has letters.
pub fn schema_of(alloc: Global, kinds: &str) -> Result<Schema, Fail> {
    let mut columns = Columns::new(alloc);
    for (letter, name) in kinds.as_bytes().iter().zip(NAMES.chunks(1)) {
        columns.push(Column::plain(alloc, name, kind_of(*letter))?)?;
    }
    Ok(Schema::checked(columns).ok_or("no schema")?)
}

// These bytes, and behind them as many of 0 as a page has.
pub fn page_of(front: &[u8]) -> [u8; 4096] {
    let mut page = [0; PAGE_BYTES];
    for (at, byte) in front.iter().enumerate() {
        if at < PAGE_BYTES {
            page[at] = *byte;
        }
    }
    page
}

// The page of so many rows (1), built by hand.
pub fn page_of_rows(count: usize) -> [u8; 4096]
    requires { count ≤ 408 }
{
    let mut page = page_of(&ONE_ROW[..4]);
    page[4] = (count / 256) as u8;
    page[5] = (count % 256) as u8;
    let used = 16 + 10 * count;
    page[6] = (used / 256) as u8;
    page[7] = (used % 256) as u8;
    for slot in 0..count {
        let from = 16 + 2 * count + 8 * slot;
        page[16 + 2 * slot] = (from / 256) as u8;
        page[17 + 2 * slot] = (from % 256) as u8;
        page[from + 7] = 1;
    }
    page
}

// A page of one entry, built by hand.
pub fn page_of_entry(entry: &[u8]) -> [u8; 4096]
    requires { length entry.now < 4078 }
{
    let mut page = page_of(&ONE_ROW[..18]);
    let used = 18 + entry.len();
    page[6] = (used / 256) as u8;
    page[7] = (used % 256) as u8;
    for (at, byte) in entry.iter().enumerate() {
        page[18 + at] = *byte;
    }
    page
}
