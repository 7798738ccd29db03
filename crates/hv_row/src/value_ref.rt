// Values read in place, from the bytes of a row.
ghost use Rattle.std.specs.Prelude.{◌≡◌, ◌≤◌, length, slice_get, option_map, IfOk, IfSome};
ghost use Rattle.hv_row.specs.Value.{FitsType, type_of};
ghost use Rattle.hv_row.specs.Row.{RowFits, row_bytes};
ghost use Rattle.hv_row.specs.Spelling.{IsSpelling};
ghost use Rattle.hv_row.specs.Packed.{value_lent, value_size, value_spelled, row_spelled};

use crate::row::INT_BYTES;
use crate::{Bytes, ColType, Column, Row, Schema, Value};
use std::alloc::{AllocError, Global};

/// A value that is lent: a number, or the bytes of a text.
#[derive(Clone, Copy, Debug)]
pub enum ValueRef<'a> {
    Int(i64),
    Text(&'a [u8]),
}

impl<'a> ValueRef<'a> {
    /// The value, of which a copy is kept. `Err` only for want of memory.
    pub fn to_value(self, alloc: Global) -> Result<Value, AllocError>
        ensures { IfOk result (λ value. value ≡ value_lent self.entry) }
    {
        match self {
            ValueRef::Int(number) => Ok(Value::Int(number)),
            ValueRef::Text(text) => Ok(Value::Text(Bytes::from_slice(alloc, text)?)),
        }
    }
}

/// The value of a column, counted from 0, of the row that these bytes spell; `None` where it has no such column.
/// It is lent from the bytes, of which nothing is tested again. Takes no memory.
#[inline]
pub fn column_at<'a>(bytes: &'a [u8], columns: &[Column], column: usize) -> Option<ValueRef<'a>>
    requires { IsSpelling columns.now bytes.now }
    ensures value { option_map value_lent result ≡ slice_get (row_spelled columns.now bytes.now) column }
    // A text is one of a column.
    ensures fits { IfSome result (λ value. FitsType (type_of (value_lent value)) (value_lent value)) }
{
    if column >= columns.len() {
        return None;
    }
    let mut at = 0;
    for before in &columns[..column] {
        at += value_size(&bytes[at..], before.kind);
    }
    Some(first_value(&bytes[at..], columns[column].kind))
}

/// The row that these bytes spell, of which nothing is tested again. `Err` only for want of memory.
pub fn decode_spelled(alloc: Global, bytes: &[u8], schema: &Schema) -> Result<Row, AllocError>
    requires { IsSpelling schema.now bytes.now }
    ensures row { IfOk result (λ row. row ≡ row_spelled schema.now bytes.now) }
    // So it fits the schema, and these are its bytes.
    ensures fits { IfOk result (λ row. RowFits schema.now row) }
    ensures spelt { IfOk result (λ row. row_bytes schema.now row ≡ bytes.now) }
{
    let columns = schema.columns();
    let mut row = Row::with_capacity(alloc, columns.len())?;
    let mut at = 0;
    for column in columns {
        let rest = &bytes[at..];
        row.push(first_value(rest, column.kind).to_value(alloc)?)?;
        at += value_size(rest, column.kind);
    }
    Ok(row)
}

// How many bytes the value takes with which these bytes begin.
#[inline]
fn value_size(bytes: &[u8], kind: ColType) -> usize
    requires { value_size kind bytes.now ≤ length bytes.now }
    ensures same { result ≡ value_size kind bytes.now }
    ensures within { result ≤ length bytes.now }
{
    match kind {
        ColType::Int => INT_BYTES,
        ColType::Text => 1 + usize::from(bytes[0]),
    }
}

// The value with which these bytes begin.
#[inline]
fn first_value(bytes: &[u8], kind: ColType) -> ValueRef<'_>
    requires { value_size kind bytes.now ≤ length bytes.now }
    ensures { value_lent result ≡ value_spelled kind bytes.now }
{
    match kind {
        ColType::Int => ValueRef::Int(i64::from_be_bytes([
            bytes[0], bytes[1], bytes[2], bytes[3], bytes[4], bytes[5], bytes[6], bytes[7],
        ])),
        ColType::Text => ValueRef::Text(&bytes[1..1 + usize::from(bytes[0])]),
    }
}
