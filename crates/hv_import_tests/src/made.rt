// Schemas that the tests are about.
use hv_row::{ColType, Column, Columns, Schema};
use std::alloc::Global;
use std::test::Fail;

// A column of numbers for an `i`, else one of texts.
fn kind_of(letter: u8) -> ColType {
    if letter == b'i' {
        ColType::Int
    } else {
        ColType::Text
    }
}

// As many columns as `kinds` has letters, at most 26, named `a`, `b` and so on.
pub fn schema_of(alloc: Global, kinds: &str) -> Result<Schema, Fail> {
    let mut columns = Columns::new(alloc);
    for (letter, name) in kinds
        .as_bytes()
        .iter()
        .zip(b"abcdefghijklmnopqrstuvwxyz".chunks(1))
    {
        columns.push(Column::plain(alloc, name, kind_of(*letter))?)?;
    }
    Ok(Schema::checked(columns).ok_or("no schema")?)
}
