// Rows under a schema, and how long their bytes are.
ghost use Rattle.std.specs.Prelude.{◌≡◌, ℕ, ◌+◌, ◌<◌, ◌≤◌, ◌↔◌, length, get_or, IsTrue};
ghost use Rattle.hv_row.specs.Value.{FitsType, IsTextValue, value_bytes};
ghost use Rattle.hv_row.specs.Row.{RowFits, row_bytes};

use crate::{ColType, Column, Value};

/// The most bytes that a row takes in a page: this project's own.
pub const MAX_ROW_BYTES: u32 = 2000;

/// The most bytes of a text in a column, so that one byte has its length: this project's own.
pub const MAX_TEXT_BYTES: usize = 255;

// The bytes of a number.
pub(crate) const INT_BYTES: usize = 8;

/// Whether a column of texts may hold these bytes: UTF-8 (RFC 3629) of at most 255 bytes.
#[inline]
pub fn is_text(bytes: &[u8]) -> bool
    ensures { IsTrue result ↔ IsTextValue bytes.now }
{
    // Short texts of ASCII are told in place, by few steps and without a call.
    is_short_ascii(bytes) || is_other_text(bytes)
}

// Whether these are 8 to 16 bytes, all of them ASCII.
#[inline]
fn is_short_ascii(bytes: &[u8]) -> bool
    ensures { IsTrue result → IsTextValue bytes.now }
{
    let long = bytes.len();
    if long < 8 || 16 < long {
        return false;
    }
    // Two words, which may overlap, have all bytes.
    is_ascii_word(bytes, 0) & is_ascii_word(bytes, long - 8)
}

// The high bit of each byte of a word.
const HIGH_BITS: u64 = 0x8080_8080_8080_8080;

// Whether the eight bytes from a place on are ASCII.
#[inline]
fn is_ascii_word(bytes: &[u8], at: usize) -> bool
    requires { at + 8 ≤ length bytes.now }
    ensures { IsTrue result → (i : ℕ) → i < 8 → get_or bytes.now (at + i) 0 < 128 }
{
    let word = u64::from_le_bytes([
        bytes[at],
        bytes[at + 1],
        bytes[at + 2],
        bytes[at + 3],
        bytes[at + 4],
        bytes[at + 5],
        bytes[at + 6],
        bytes[at + 7],
    ]);
    word & HIGH_BITS == 0
}

// Whether a column of texts may hold these bytes, whatever they are; most texts are ASCII, which is told faster.
#[cold]
#[inline(never)]
fn is_other_text(bytes: &[u8]) -> bool
    ensures { IsTrue result ↔ IsTextValue bytes.now }
{
    bytes.len() <= MAX_TEXT_BYTES && (bytes.is_ascii() || str::from_utf8(bytes).is_ok())
}

/// Whether a column of this type may hold this value.
pub fn fits_type(value: &Value, kind: ColType) -> bool
    ensures { IsTrue result ↔ FitsType kind value.now }
{
    match (kind, value) {
        (ColType::Int, Value::Int(number)) => {
            // A number that is read is known to have 64 bits.
            let _number = *number;
            true
        }
        (ColType::Text, Value::Text(bytes)) => is_text(bytes.as_slice()),
        _ => false,
    }
}

/// Whether a table of these columns may hold this row: one value for each column, of its type.
pub fn row_fits(row: &[Value], schema: &[Column]) -> bool
    ensures { IsTrue result ↔ RowFits schema.now row.now }
{
    if row.len() != schema.len() {
        return false;
    }
    for (at, column) in schema.iter().enumerate() {
        if !fits_type(&row[at], column.kind) {
            return false;
        }
    }
    true
}

/// How many bytes a row takes: 8 for a number; one more than it has for a text, whose length stands before it.
/// At most 8,192, for 32 columns of 256 bytes.
pub fn row_length(row: &[Value], schema: &[Column]) -> usize
    requires fits { RowFits schema.now row.now }
    requires short { length schema.now ≤ 32 }
    ensures bytes { result ≡ length (row_bytes schema.now row.now) }
    ensures short { result ≤ 8192 }
{
    let mut total = 0;
    for (at, column) in schema.iter().enumerate() {
        total += value_length(&row[at], column.kind);
    }
    total
}

// How many bytes a value of a row takes.
fn value_length(value: &Value, kind: ColType) -> usize
    requires { FitsType kind value.now }
    ensures bytes { result ≡ length (value_bytes kind value.now) }
    ensures short { result ≤ 256 }
{
    match value {
        Value::Int(_) => INT_BYTES,
        Value::Text(bytes) => 1 + bytes.len(),
    }
}
