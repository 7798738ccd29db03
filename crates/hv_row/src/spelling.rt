// Rows as bytes, and bytes read as rows.
ghost use Rattle.std.specs.Prelude.{◌≡◌, ℕ, [], ◌+◌, ◌++◌, ◌<◌, ◌≤◌, ◌↔◌, List, length, None, Some, Ok, IsOk, IfOk, IfSome, OnOk, OnErr, MatchResult, take};
ghost use Rattle.hv_row.specs.declared.value.Value.{Value};
ghost use Rattle.hv_row.specs.declared.spelling.RowFault.TheVariants as unspelt;
ghost use Rattle.hv_row.specs.declared.spelling.DecodeFault.TheVariants as undecoded;
ghost use Rattle.hv_row.specs.Value.{FitsType, type_of, value_bytes};
ghost use Rattle.hv_row.specs.Row.{RowFits, row_bytes};
ghost use Rattle.hv_row.specs.Spelling.{IsSpelling, value_length, row_fault, IsUnspelt, IsUndecoded};

use crate::row::INT_BYTES;
use crate::{ColType, MAX_ROW_BYTES, Row, Schema, Value, decode_spelled, is_text, row_length};
use std::alloc::{AllocError, Global};

/// Why a row has no bytes in a page.
#[derive(Clone, Copy, Debug, PartialEq, Eq)]
pub enum RowFault {
    /// The row takes more than 2,000 bytes, namely so many.
    TooLong { bytes: u32 },
    Memory,
}

impl From<AllocError> for RowFault {
    ghost from_gives = { λ _ fault. fault ≡ unspelt.Memory };

    fn from(_error: AllocError) -> RowFault {
        RowFault::Memory
    }
}

/// Why bytes were not read as a row.
#[derive(Clone, Copy, Debug, PartialEq, Eq)]
pub enum DecodeFault {
    /// The bytes are no row of the schema: the first byte, counted from 0, of the first value that doesn't fit, or the row's end where bytes are left over.
    Form { byte: u16 },
    Memory,
}

impl From<AllocError> for DecodeFault {
    ghost from_gives = { λ _ fault. fault ≡ undecoded.Memory };

    fn from(_error: AllocError) -> DecodeFault {
        DecodeFault::Memory
    }
}

/// The bytes of a row: its values in column order, a number in 8 bytes of two's complement with the high byte first,
/// a text behind one byte that has its length. This project's own form; a row has one spelling.
/// `TooLong` exactly where the row takes more than 2,000 bytes, which is told before memory is taken.
pub fn encode(alloc: Global, row: &Row, schema: &Schema) -> Result<Vec<u8>, RowFault>
    requires { RowFits schema.now row.now }
    ensures spelt { IfOk result (λ v. (v.items ≡ row_bytes schema.now row.now) × (length v.items ≤ 2000)) }
    ensures cause { MatchResult result (λ _. Unit {0}) (λ fault. IsUnspelt fault (length (row_bytes schema.now row.now))) }
{
    let mut out = Vec::with_capacity(alloc, short_length(row, schema)?)?;
    encode_onto(&mut out, row, schema)?;
    Ok(out)
}

/// Puts the bytes of a row, as of `encode`, behind those that `out` has; on a fault `out` stays as it is.
/// One buffer that keeps its room serves many rows, and none of them takes memory of its own.
pub fn encode_onto(out: &mut Vec<u8>, row: &Row, schema: &Schema) -> Result<(), RowFault>
    requires { RowFits schema.now row.now }
    ensures spelt { OnOk result ((out.new.items ≡ out.old.items ++ row_bytes schema.now row.now) × (length (row_bytes schema.now row.now) ≤ 2000)) }
    ensures cause { MatchResult result (λ _. Unit {0}) (λ fault. IsUnspelt fault (length (row_bytes schema.now row.now))) }
    ensures unchanged { OnErr result (out.new.items ≡ out.old.items) }
{
    short_length(row, schema)?;
    let start = out.len();
    for value in row.as_slice() {
        if put_value(out, value).is_err() {
            out.truncate(start);
            return Err(RowFault::Memory);
        }
    }
    Ok(())
}

// How many bytes the row takes, where a page has room for it.
fn short_length(row: &Row, schema: &Schema) -> Result<usize, RowFault>
    requires { RowFits schema.now row.now }
    ensures length { IfOk result (λ bytes. (bytes ≡ length (row_bytes schema.now row.now)) × (bytes ≤ 2000)) }
    ensures cause { MatchResult result (λ _. Unit {0}) (λ fault. (fault ≡ unspelt.TooLong (length (row_bytes schema.now row.now))) × (2000 < length (row_bytes schema.now row.now))) }
{
    let length = row_length(row.as_slice(), schema.columns());
    let bytes = length as u32;
    if bytes > MAX_ROW_BYTES {
        return Err(RowFault::TooLong { bytes });
    }
    Ok(length)
}

// Puts the bytes of a value behind those of `out`; on a fault those still stand at its front.
fn put_value(out: &mut Vec<u8>, value: &Value) -> Result<(), AllocError>
    requires { FitsType (type_of value.now) value.now }
    ensures spelt { OnOk result (out.new.items ≡ out.old.items ++ value_bytes (type_of value.now) value.now) }
    ensures kept { take (length out.old.items) out.new.items ≡ out.old.items }
{
    match value {
        Value::Int(number) => out.extend_from_slice(&number.to_be_bytes()),
        Value::Text(text) => {
            out.push(text.len() as u8)?;
            out.extend_from_slice(text.as_slice())
        }
    }
}

/// Whether bytes, at most 4,096 of them, are a row of the schema; else the place, counted from 0, of the first byte
/// of the first value that doesn't fit, or the row's end where bytes are left over. Takes no memory.
pub fn check(bytes: &[u8], schema: &Schema) -> Result<(), u16>
    requires { length bytes.now ≤ 4096 }
    // Which bytes are a row.
    ensures spelt { IsOk result ↔ IsSpelling schema.now bytes.now }
    // Which place it is.
    ensures fault { MatchResult result (λ _. row_fault schema.now bytes.now ≡ None) (λ byte. row_fault schema.now bytes.now ≡ Some byte) }
    // No spelling of a row begins another one.
    ensures alone { IfOk result (λ _. (rest : List ℕ) → IsSpelling schema.now (bytes.now ++ rest) → rest ≡ []) }
{
    let mut at = 0;
    for column in schema.columns() {
        match value_length(&bytes[at..], column.kind) {
            Some(length) => at += length,
            None => return Err(at as u16),
        }
    }
    if at < bytes.len() {
        return Err(at as u16);
    }
    Ok(())
}

// How many bytes the value at the front takes; `None` where no value of the type stands there.
#[tactic(auto, unfolding(crate::specs::Spelling::value_length))]
fn value_length(bytes: &[u8], kind: ColType) -> Option<usize>
    ensures same { result ≡ value_length kind bytes.now }
    ensures within { IfSome result (λ taken. taken ≤ length bytes.now) }
{
    match kind {
        ColType::Int if bytes.len() < INT_BYTES => None,
        ColType::Int => Some(INT_BYTES),
        ColType::Text => {
            let [length, rest @ ..] = bytes else {
                return None;
            };
            let length = *length as usize;
            if rest.len() < length || !is_text(&rest[..length]) {
                return None;
            }
            Some(1 + length)
        }
    }
}

/// The row that the bytes spell, at most 4,096 of them. `Form` exactly where `check` names that byte.
pub fn decode(alloc: Global, bytes: &[u8], schema: &Schema) -> Result<Row, DecodeFault>
    requires { length bytes.now ≤ 4096 }
    // What is read fits the schema and is spelled so.
    ensures found { IfOk result (λ row. RowFits schema.now row × (bytes.now ≡ row_bytes schema.now row)) }
    // What is spelled so is read, unless memory runs out.
    ensures only { (row : List Value) → RowFits schema.now row → bytes.now ≡ row_bytes schema.now row → MatchResult result (λ found. found ≡ row) (λ fault. fault ≡ undecoded.Memory) }
    // Which fault it is.
    ensures fault { MatchResult result (λ _. row_fault schema.now bytes.now ≡ None) (λ fault. IsUndecoded fault (row_fault schema.now bytes.now)) }
{
    if let Err(byte) = check(bytes, schema) {
        return Err(DecodeFault::Form { byte });
    }
    Ok(decode_spelled(alloc, bytes, schema)?)
}
