// Rows kept packed, and their values read in place; the bytes are reasoned from the form.
use crate::made::{row_of, schema_of};
use hv_row::{PackedRows, ValueRef, check, decode_spelled, row_fits};
use std::alloc::Global;
use std::test::Fail;

// The bytes of 258 and `ab`, and of -1 and an empty text.
const FIRST: &[u8] = b"\0\0\0\0\0\0\x01\x02\x02ab";

const SECOND: &[u8] = b"\xff\xff\xff\xff\xff\xff\xff\xff\0";

// Puts the row that these bytes spell behind the others.
fn push(packed: &mut PackedRows, bytes: &[u8]) -> Result<(), Fail> {
    if bytes.len() > 4096 || check(bytes, packed.schema()).is_err() {
        return Err(Fail::from("no row"));
    }
    Ok(packed.push(bytes)?)
}

// Rows of a number and a text.
fn rows(alloc: Global) -> Result<PackedRows, Fail> {
    let mut packed = PackedRows::new(alloc, &schema_of(alloc, "it")?)?;
    push(&mut packed, FIRST)?;
    push(&mut packed, SECOND)?;
    Ok(packed)
}

fn row_at(packed: &PackedRows, place: usize) -> Option<&[u8]> {
    if place < packed.len() {
        Some(packed.row(place))
    } else {
        None
    }
}

fn value_at(packed: &PackedRows, place: usize, column: usize) -> Option<ValueRef<'_>> {
    if place < packed.len() {
        packed.value_at(place, column)
    } else {
        None
    }
}

fn is_number(value: Option<ValueRef<'_>>, want: i64) -> bool {
    match value {
        Some(ValueRef::Int(number)) => number == want,
        _ => false,
    }
}

fn is_text(value: Option<ValueRef<'_>>, want: &[u8]) -> bool {
    match value {
        Some(ValueRef::Text(text)) => text == want,
        _ => false,
    }
}

#[test]
fn keeps_the_bytes_of_rows(rt: HostRuntime) -> Result<(), Fail> {
    let packed = rows(rt.alloc())?;
    assert!(rt; row_at(&packed, 0) == Some(FIRST));
    assert!(rt; row_at(&packed, 1) == Some(SECOND));
    Ok(())
}

#[test]
fn lends_numbers_and_texts(rt: HostRuntime) -> Result<(), Fail> {
    let packed = rows(rt.alloc())?;
    assert!(rt; is_number(value_at(&packed, 1, 0), -1));
    assert!(rt; is_text(value_at(&packed, 0, 1), b"ab"));
    Ok(())
}

#[test]
fn lends_nothing_past_the_columns(rt: HostRuntime) -> Result<(), Fail> {
    let packed = rows(rt.alloc())?;
    assert!(rt; value_at(&packed, 0, 2).is_none());
    Ok(())
}

#[test]
fn spells_a_row_behind_the_others(rt: HostRuntime) -> Result<(), Fail> {
    let mut packed = rows(rt.alloc())?;
    let row = row_of(rt.alloc(), "it", 258, "ab")?;
    assert!(rt; row_fits(row.as_slice(), packed.schema().columns()));
    assert!(rt; packed.push_row(&row).is_ok());
    assert!(rt; row_at(&packed, 2) == Some(FIRST));
    Ok(())
}

#[test]
fn reads_a_packed_row(rt: HostRuntime) -> Result<(), Fail> {
    let packed = rows(rt.alloc())?;
    assert!(rt; 1 < packed.len());
    let row = decode_spelled(rt.alloc(), packed.row(1), packed.schema())?;
    assert!(rt; row == row_of(rt.alloc(), "it", -1, "")?);
    Ok(())
}
