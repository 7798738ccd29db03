// Columns, schemas and rows that the tests are about.
use hv_row::{Bytes, ColType, Column, Columns, Row, Schema, Value};
use std::alloc::Global;
use std::test::Fail;

// The names of up to 32 columns.
const NAMES: &[u8] = b"abcdefghijklmnopqrstuvwxyz012345";

pub fn text(alloc: Global, letters: &str) -> Result<Value, Fail> {
    Ok(Value::Text(Bytes::from_slice(alloc, letters.as_bytes())?))
}

// A column of numbers that has an index, or one of texts that has ranges.
pub fn column(alloc: Global, name: &[u8], kind: ColType) -> Result<Column, Fail> {
    Ok(Column {
        name: Bytes::from_slice(alloc, name)?,
        kind,
        index: kind == ColType::Int,
        range: kind == ColType::Text,
    })
}

// A column of numbers for an `i`, else one of texts.
fn kind_of(letter: u8) -> ColType {
    if letter == b'i' {
        ColType::Int
    } else {
        ColType::Text
    }
}

// As many columns as `kinds` has letters, with distinct names.
pub fn columns_of(alloc: Global, kinds: &str) -> Result<Columns, Fail> {
    let mut columns = Columns::new(alloc);
    for (letter, name) in kinds.as_bytes().iter().zip(NAMES.chunks(1)) {
        columns.push(column(alloc, name, kind_of(*letter))?)?;
    }
    Ok(columns)
}

pub fn schema_of(alloc: Global, kinds: &str) -> Result<Schema, Fail> {
    Ok(Schema::checked(columns_of(alloc, kinds)?).ok_or("no schema")?)
}

// A row of such a schema, with the same number and text throughout.
pub fn row_of(alloc: Global, kinds: &str, number: i64, letters: &str) -> Result<Row, Fail> {
    let mut row = Row::new(alloc);
    for letter in kinds.as_bytes() {
        row.push(if *letter == b'i' {
            Value::Int(number)
        } else {
            text(alloc, letters)?
        })?;
    }
    Ok(row)
}
