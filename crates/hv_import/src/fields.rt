// A record of comma-separated fields, spelled as a row.
ghost use Rattle.std.specs.Prelude.{◌≡◌, ◌≤◌, ◌++◌, true, false, length, Some, None, Ok, IfOk, IfErr, OnOk, SomeIff, MatchOption};
ghost use Rattle.std.specs.Str.Parse.{signed_digits_value};
ghost use Rattle.csv.specs.Records.{fields_of};
ghost use Rattle.hv_row.specs.Value.{value_bytes};
ghost use Rattle.hv_row.specs.Spelling.{IsSpelling};
ghost use Rattle.hv_row.specs.Packed.{row_spelled};
ghost use Rattle.hv_model.specs.Import.{is_integer, field_value, row_of};
ghost use Rattle.hv_import.specs.Rows.{IsRowsFault};

use crate::rows::RowsFault;
use csv::ByteRecord;
use hv_row::{ColType, Column, MAX_ROW_BYTES, is_text};
use std::alloc::AllocError;

// Spells the record of this number, of at most 1,000,000, as a row of the columns, in place of what `out` had.
pub fn spell_record(
    out: &mut Vec<u8>,
    columns: &[Column],
    record: &ByteRecord,
    number: u32,
) -> Result<(), RowsFault>
    requires few { length columns.now ≤ 32 }
    requires number { number ≤ 1000000 }
    ensures row { OnOk result (row_of columns.now number (fields_of «record».now) ≡ Ok (row_spelled columns.now out.new.items)) }
    ensures spelling { OnOk result (IsSpelling columns.now out.new.items) }
    ensures short { OnOk result (length out.new.items ≤ 2000) }
    ensures fault { IfErr result (λ fault. IsRowsFault (row_of columns.now number (fields_of «record».now)) fault) }
{
    out.clear();
    if record.len() != columns.len() {
        return Err(RowsFault::BadRow {
            row: number,
            column: 0,
        });
    }
    for (at, column) in columns.iter().enumerate() {
        // There are as many fields as columns.
        let field = record.get(at).unwrap();
        if !spell_field(out, column.kind, field)? {
            return Err(RowsFault::BadRow {
                row: number,
                column: at as u8 + 1,
            });
        }
    }
    if out.len() > MAX_ROW_BYTES as usize {
        return Err(RowsFault::LongRow { row: number });
    }
    Ok(())
}

// Spells a field as a value of a type behind those of `out`; `false` where it is none.
fn spell_field(out: &mut Vec<u8>, kind: ColType, field: &[u8]) -> Result<bool, AllocError>
    ensures { IfOk result (λ spelled. MatchOption (field_value kind field.now) (spelled ≡ false) (λ value. (spelled ≡ true) × (out.new.items ≡ out.old.items ++ value_bytes kind value))) }
{
    match kind {
        ColType::Int => {
            let Some(number) = integer(field) else {
                return Ok(false);
            };
            out.extend_from_slice(&number.to_be_bytes())?;
        }
        ColType::Text => {
            if !is_text(field) {
                return Ok(false);
            }
            out.push(field.len() as u8)?;
            out.extend_from_slice(field)?;
        }
    }
    Ok(true)
}

// The number that a field writes: an optional sign and digits, in the range of 64 bits.
fn integer(field: &[u8]) -> Option<i64>
    ensures { SomeIff result (is_integer field.now ≡ true) (signed_digits_value 10 field.now) }
{
    let Ok(text) = str::from_utf8(field) else {
        return None;
    };
    text.parse::<i64>().ok()
}
