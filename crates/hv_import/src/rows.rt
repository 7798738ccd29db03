// The rows that the data of an import spells.
ghost use Rattle.std.specs.Prelude.{◌≡◌, ◌≤◌, Ok, length, IfOk, IfErr};
ghost use Rattle.hv_model.specs.Import.{rows_of};
ghost use Rattle.hv_import.specs.declared.rows.RowsFault.TheVariants.{Memory};
ghost use Rattle.hv_import.specs.Rows.{AreShort, IsRowsFault};

use crate::fields::spell_record;
use csv::{ByteRecord, ReaderBuilder};
use hv_row::{MAX_ROW_BYTES, PackedRows, Schema};
use std::alloc::{AllocError, Global};

/// The most records of an import: this project's own.
pub const MAX_RECORDS: u32 = 1_000_000;

/// Why data spells no rows: the first record that is no row of the schema, by its number from 1; or want of memory.
#[derive(Debug, Clone, Copy, PartialEq, Eq)]
pub enum RowsFault {
    /// The number of the first column, from 1, whose field is no value of it; 0 where the record has another number of
    /// fields than the schema has columns, or is one past the most that an import has.
    BadRow { row: u32, column: u8 },
    /// Its row bytes are more than 2,000.
    LongRow { row: u32 },
    /// Want of memory at any point.
    Memory,
}

impl From<AllocError> for RowsFault {
    ghost from_gives = { λ _ fault. fault ≡ Memory };

    fn from(_error: AllocError) -> RowsFault {
        RowsFault::Memory
    }
}

/// The rows of an import's data, comma-separated as RFC 4180 has it: no header, fields between quotes where they are
/// quoted, blank lines passed over, a byte order mark at the start left out. Each record is a row of the schema, packed;
/// or the fault tells the first that isn't. At most 1,000,000 records, of at most 2,000 row bytes each.
pub fn rows_of(alloc: Global, text: &[u8], schema: &Schema) -> Result<PackedRows, RowsFault>
    ensures rows { IfOk result (λ packed. rows_of schema.now text.now ≡ Ok packed.rows) }
    ensures schema { IfOk result (λ packed. packed.schema ≡ schema.now) }
    ensures few { IfOk result (λ packed. length packed.rows ≤ 1000000) }
    ensures short { IfOk result (λ packed. AreShort packed.schema packed.rows) }
    ensures fault { IfErr result (λ fault. IsRowsFault (rows_of schema.now text.now) fault) }
{
    let mut rows = PackedRows::new(alloc, schema)?;
    let mut entry = Vec::with_capacity(alloc, MAX_ROW_BYTES as usize)?;
    // Records of any number of fields are read, so that a read is at fault for memory alone.
    let mut reader = ReaderBuilder::new()
        .has_headers(false)
        .flexible(true)
        .from_reader(alloc, text);
    let mut fields = ByteRecord::new(alloc);
    for number in 1..=MAX_RECORDS {
        let Ok(found) = reader.read_byte_record(&mut fields) else {
            return Err(RowsFault::Memory);
        };
        if !found {
            return Ok(rows);
        }
        spell_record(&mut entry, schema.columns(), &fields, number)?;
        rows.push(entry.as_slice())?;
    }
    let Ok(found) = reader.read_byte_record(&mut fields) else {
        return Err(RowsFault::Memory);
    };
    if found {
        // Whatever it is, it is one record too many.
        return Err(RowsFault::BadRow {
            row: MAX_RECORDS + 1,
            column: 0,
        });
    }
    Ok(rows)
}
