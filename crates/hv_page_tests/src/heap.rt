// Rows packed into heap pages; the expected places and bytes are reasoned, and no output of the crate's own.
ghost use Rattle.std.specs.Prelude.{◌≡◌, ◌+◌, ◌≤◌, IfOk};

use crate::made::{ONE_ROW, page_of, schema_of};
use hv_heap::{HeapWriter, Placed, row_at};
use hv_page::{PAGE_BYTES, RowId, parse_heap};
use hv_row::{Bytes, Row, RowFault, Schema, Value, check, row_fits};
use std::alloc::Global;
use std::test::Fail;

// A text of so many bytes.
fn text_of(alloc: Global, bytes: usize) -> Result<Value, Fail> {
    let mut text = Bytes::with_capacity(alloc, bytes)?;
    for _ in 0..bytes {
        text.push(b'a')?;
    }
    Ok(Value::Text(text))
}

// Adds so many rows of one number, which is 1, and says where the last one was placed.
fn add_ones(
    alloc: Global,
    writer: &mut HeapWriter,
    schema: &Schema,
    count: u32,
) -> Result<Option<Placed>, Fail>
    requires same { writer.old.schema ≡ schema.now }
    requires few { writer.old.added + count ≤ 1000000 }
    ensures same { IfOk result (λ _. writer.new.schema ≡ schema.now) }
    ensures added { IfOk result (λ _. writer.new.added ≡ writer.old.added + count) }
{
    let mut row = Row::new(alloc);
    row.push(Value::Int(1))?;
    if !row_fits(row.as_slice(), schema.columns()) {
        return Err("no row of one number".into());
    }
    let mut last = None;
    for _at in 0..count {
        last = Some(writer.add(&row)?);
    }
    Ok(last)
}

// Where the last of so many rows of one number was placed.
fn place_of_last(alloc: Global, count: u32) -> Result<Option<Placed>, Fail> {
    let schema = schema_of(alloc, "i")?;
    let mut writer = HeapWriter::new(alloc, &schema)?;
    if count > 1000 {
        return Err("too many rows".into());
    }
    add_ones(alloc, &mut writer, &schema, count)
}

fn placed(page: u32, slot: u16, full: bool) -> Option<Placed> {
    let id = RowId { page, slot };
    Some(Placed { id, full })
}

#[test]
fn places_408_numbers_on_a_page(rt: HostRuntime) -> Result<(), Fail> {
    for (count, want) in [
        (1, placed(0, 0, false)),
        (408, placed(0, 407, false)),
        (409, placed(1, 0, true)),
        (410, placed(1, 1, false)),
    ] {
        assert!(rt; place_of_last(rt.alloc(), count)? == want, "{count}");
    }
    Ok(())
}

#[test]
fn begins_a_page_with_the_first_row(rt: HostRuntime) -> Result<(), Fail> {
    let schema = schema_of(rt.alloc(), "i")?;
    let mut writer = HeapWriter::new(rt.alloc(), &schema)?;
    add_ones(rt.alloc(), &mut writer, &schema, 1)?;
    assert!(rt; writer.page() == page_of(&ONE_ROW).as_slice());
    Ok(())
}

#[test]
fn adds_a_row_by_its_bytes(rt: HostRuntime) -> Result<(), Fail> {
    let schema = schema_of(rt.alloc(), "i")?;
    let mut writer = HeapWriter::new(rt.alloc(), &schema)?;
    let one = 1i64.to_be_bytes();
    assert!(rt; check(&one, &schema).is_ok());
    assert!(rt; Some(writer.add_spelled(&one)) == placed(0, 0, false));
    assert!(rt; writer.page() == page_of(&ONE_ROW).as_slice());
    Ok(())
}

// The count, the first place behind the entries, the page's number.
fn is_headed(page: &[u8], want: [u8; 8]) -> bool {
    page.get(4..12) == Some(want.as_slice())
}

#[test]
fn fills_a_page_with_408_numbers(rt: HostRuntime) -> Result<(), Fail> {
    let schema = schema_of(rt.alloc(), "i")?;
    let mut writer = HeapWriter::new(rt.alloc(), &schema)?;
    add_ones(rt.alloc(), &mut writer, &schema, 410)?;
    assert!(rt; is_headed(writer.done(), [0x01, 0x98, 0x10, 0x00, 0, 0, 0, 0]));
    assert!(rt; is_headed(writer.page(), [0, 2, 0, 36, 0, 0, 0, 1]));
    Ok(())
}

// A row of eight texts, all but the last of 255 bytes.
fn row_of_texts(alloc: Global, last: usize) -> Result<Row, Fail> {
    let mut row = Row::new(alloc);
    for _ in 0..7 {
        row.push(text_of(alloc, 255)?)?;
    }
    row.push(text_of(alloc, last)?)?;
    Ok(row)
}

// Why the row is not taken.
fn fault_of(alloc: Global, schema: &Schema, row: &Row) -> Result<Option<RowFault>, Fail> {
    let mut writer = HeapWriter::new(alloc, schema)?;
    if !row_fits(row.as_slice(), schema.columns()) {
        return Err("no row of the schema".into());
    }
    Ok(writer.add(row).err())
}

#[test]
fn takes_rows_of_at_most_2000_bytes(rt: HostRuntime) -> Result<(), Fail> {
    let schema = schema_of(rt.alloc(), "tttttttt")?;
    // Seven texts take 256 bytes each, and the last one a byte more than it has.
    for (bytes, want) in [(207, None), (208, Some(RowFault::TooLong { bytes: 2001 }))] {
        let row = row_of_texts(rt.alloc(), bytes)?;
        assert!(rt; fault_of(rt.alloc(), &schema, &row)? == want, "{bytes}");
    }
    Ok(())
}

// Whether a row is the second of page 0.
fn is_second(alloc: Global, page: &[u8], schema: &Schema, row: &Row) -> Result<bool, Fail> {
    if page.len() != PAGE_BYTES {
        return Ok(false);
    }
    let view = parse_heap(page, 0, schema)?;
    if view.count() != 2 {
        return Ok(false);
    }
    Ok(row_at(alloc, &view, 1, schema)? == *row)
}

// Whether a row that is added twice is read from its page.
fn is_read_back(alloc: Global, schema: &Schema, row: &Row) -> Result<bool, Fail> {
    let mut writer = HeapWriter::new(alloc, schema)?;
    if !row_fits(row.as_slice(), schema.columns()) {
        return Ok(false);
    }
    writer.add(row)?;
    writer.add(row)?;
    is_second(alloc, writer.page(), schema, row)
}

fn number_and_text(alloc: Global, number: i64, bytes: usize) -> Result<Row, Fail> {
    let mut row = Row::new(alloc);
    row.push(Value::Int(number))?;
    row.push(text_of(alloc, bytes)?)?;
    Ok(row)
}

#[test]
fn reads_rows_back(rt: HostRuntime) -> Result<(), Fail> {
    let schema = schema_of(rt.alloc(), "it")?;
    for (number, bytes) in [(i64::MIN, 0), (-1, 3), (i64::MAX, 255)] {
        let row = number_and_text(rt.alloc(), number, bytes)?;
        assert!(rt; is_read_back(rt.alloc(), &schema, &row)?, "{number}");
    }
    Ok(())
}
