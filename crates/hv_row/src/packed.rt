// Rows kept packed: their bytes one behind another.
ghost use Rattle.std.specs.Prelude.{◌≡◌, [], ◌∷◌, ◌++◌, ◌<◌, ◌≤◌, ◌↔◌, length, get_or, slice_get, take, drop, ◌-◌, option_map, IsTrue, IfOk, IfSome, OnOk, OnErr, MatchResult};
ghost use Rattle.hv_row.specs.Value.{FitsType, type_of};
ghost use Rattle.hv_row.specs.Row.{RowFits, row_bytes};
ghost use Rattle.hv_row.specs.Spelling.{IsSpelling, IsUnspelt};
ghost use Rattle.hv_row.specs.Packed.{Packed, value_lent, row_spelled, with_row, start_of};

use crate::{Copied, Row, RowFault, Schema, ValueRef, column_at, encode_onto};
use std::alloc::{AllocError, Global};
use std::marker::Model;

/// Rows under a schema, of which only the bytes are kept, and 8 bytes for the end of each; contracts see the rows.
#[derive(Drop)]
pub struct PackedRows {
    schema: Schema,
    bytes: Vec<u8>,
    ends: Vec<usize>,
}

impl Model for PackedRows {
    ghost use Rattle.std.specs.Prelude.{map};
    ghost use Rattle.hv_row.specs.Packed.{Packed, ArePacked, cut, row_spelled};

    ghost Value = { Packed };

    ghost view = { λ p. record { schema = p.schema; rows = map (row_spelled p.schema) (cut 0 p.bytes.items p.ends.items) } };

    ghost invariant = { λ p. ArePacked p.schema p.bytes.items p.ends.items };
}

impl PackedRows {
    /// No rows. `Err` only for want of memory.
    pub fn new(alloc: Global, schema: &Schema) -> Result<PackedRows, AllocError>
        ensures { IfOk result (λ packed. packed ≡ record { schema = schema.now; rows = [] }) }
    {
        Ok(PackedRows {
            schema: schema.copy(alloc)?,
            bytes: Vec::new(alloc),
            ends: Vec::new(alloc),
        })
    }

    /// How many rows there are.
    pub fn len(&self) -> usize
        ensures { result ≡ length self.now.rows }
    {
        self.ends.len()
    }

    pub fn is_empty(&self) -> bool
        ensures { IsTrue result ↔ (self.now.rows ≡ []) }
    {
        self.len() == 0
    }

    /// The schema that the rows fit.
    pub fn schema(&self) -> &Schema
        ensures { result.now ≡ self.now.schema }
    {
        &self.schema
    }

    /// Puts the row that these bytes spell behind the others, by its bytes as they are. `Err` only for want of memory,
    /// and then nothing changes.
    pub fn push(&mut self, bytes: &[u8]) -> Result<(), AllocError>
        requires { IsSpelling self.old.schema bytes.now }
        ensures pushed { OnOk result (self.new ≡ with_row self.old (row_spelled self.old.schema bytes.now)) }
        ensures unchanged { OnErr result (self.new ≡ self.old) }
    {
        let start = self.bytes.len();
        self.bytes.extend_from_slice(bytes)?;
        end_row(&mut self.bytes, &mut self.ends, start)?;
        Ok(())
    }

    /// Puts a row that fits the schema behind the others. `TooLong` exactly where it takes more than 2,000 bytes, which
    /// is told before memory is taken; nothing changes after a fault.
    pub fn push_row(&mut self, row: &Row) -> Result<(), RowFault>
        requires { RowFits self.old.schema row.now }
        ensures pushed { OnOk result ((self.new ≡ with_row self.old row.now) × (length (row_bytes self.old.schema row.now) ≤ 2000)) }
        ensures cause { MatchResult result (λ _. Unit {0}) (λ fault. IsUnspelt fault (length (row_bytes self.old.schema row.now))) }
        ensures unchanged { OnErr result (self.new ≡ self.old) }
    {
        let start = self.bytes.len();
        encode_onto(&mut self.bytes, row, &self.schema)?;
        end_row(&mut self.bytes, &mut self.ends, start)?;
        Ok(())
    }

    /// The bytes of the row at a place, counted from 0.
    pub fn row(&self, place: usize) -> &[u8]
        requires { place < length self.now.rows }
        ensures same { result.now ≡ row_bytes self.now.schema (get_or self.now.rows place []) }
        ensures fits { RowFits self.now.schema (get_or self.now.rows place []) }
        // So they spell that row.
        ensures spelling { IsSpelling self.now.schema result.now }
        ensures spelled { row_spelled self.now.schema result.now ≡ get_or self.now.rows place [] }
    {
        let ends = self.ends.as_slice();
        part(
            self.bytes.as_slice(),
            start_of(ends, place),
            end_of(ends, place),
        )
    }

    /// The value of a column of the row at a place, both counted from 0; `None` where the row has no such column.
    /// It is lent from the row's bytes, of which nothing is tested again.
    pub fn value_at(&self, place: usize, column: usize) -> Option<ValueRef<'_>>
        requires { place < length self.now.rows }
        ensures value { option_map value_lent result ≡ slice_get (get_or self.now.rows place []) column }
        // A text is one of a column.
        ensures fits { IfSome result (λ value. FitsType (type_of (value_lent value)) (value_lent value)) }
    {
        column_at(self.row(place), self.schema.columns(), column)
    }
}

// Ends the row that starts at a place; for want of memory, what stands from there on goes.
fn end_row(bytes: &mut Vec<u8>, ends: &mut Vec<usize>, start: usize) -> Result<(), AllocError>
    ensures ok { OnOk result ((bytes.new.items ≡ bytes.old.items) × (ends.new.items ≡ ends.old.items ++ length bytes.old.items ∷ [])) }
    ensures err { OnErr result ((bytes.new.items ≡ take start bytes.old.items) × (ends.new.items ≡ ends.old.items)) }
{
    if ends.push(bytes.len()).is_err() {
        bytes.truncate(start);
        return Err(AllocError);
    }
    Ok(())
}

// Where the row at a place starts.
fn start_of(ends: &[usize], place: usize) -> usize
    requires { place ≤ length ends.now }
    ensures { result ≡ start_of 0 ends.now place }
{
    if place == 0 { 0 } else { ends[place - 1] }
}

// Where the row at a place ends.
fn end_of(ends: &[usize], place: usize) -> usize
    requires { place < length ends.now }
    ensures { result ≡ get_or ends.now place 0 }
{
    ends[place]
}

// The bytes from a place to another.
fn part(bytes: &[u8], from: usize, to: usize) -> &[u8]
    requires order { from ≤ to }
    requires within { to ≤ length bytes.now }
    ensures { result.now ≡ take (to - from) (drop from bytes.now) }
{
    &bytes[from..to]
}
