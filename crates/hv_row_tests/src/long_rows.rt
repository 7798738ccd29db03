// Rows of each length up to 2,000 bytes and one more, and bytes as long as a page.
use crate::bytes_of_rows::is_read;
use crate::made::schema_of;
use hv_row::{
    Bytes, MAX_TEXT_BYTES, Row, RowFault, Schema, Value, check, encode, encode_onto, row_fits,
};
use std::alloc::Global;
use std::test::Fail;

// A row of texts that takes so many bytes: one for each text's length, and the rest in the first texts.
fn row_of_length(alloc: Global, texts: usize, bytes: usize) -> Result<Row, Fail> {
    let letters = [b'a'; MAX_TEXT_BYTES];
    let mut left = bytes.saturating_sub(texts);
    let mut row = Row::new(alloc);
    for _ in 0..texts {
        let taken = left.min(MAX_TEXT_BYTES);
        row.push(Value::Text(Bytes::from_slice(alloc, &letters[..taken])?))?;
        left -= taken;
    }
    Ok(row)
}

// What a row is spelt as: its bytes, and what `encode_onto` answers.
fn spelt(
    alloc: Global,
    out: &mut Vec<u8>,
    row: &Row,
    schema: &Schema,
) -> Result<Result<Vec<u8>, RowFault>, Fail> {
    if !row_fits(row.as_slice(), schema.columns()) {
        return Err(Fail::from("no row of the schema"));
    }
    let answer = encode_onto(out, row, schema);
    let bytes = encode(alloc, row, schema);
    match (answer, &bytes) {
        (Ok(()), Ok(_)) | (Err(_), Err(_)) => Ok(bytes),
        _ => Err(Fail::from("two answers")),
    }
}

// Whether the row of so many bytes is spelt in them, and read back.
fn is_kept(alloc: Global, schema: &Schema, texts: usize, bytes: usize) -> Result<bool, Fail> {
    let row = row_of_length(alloc, texts, bytes)?;
    let mut out = Vec::new(alloc);
    let spelt = spelt(alloc, &mut out, &row, schema)?
        .ok()
        .ok_or("too long")?;
    Ok(out == spelt && out.len() == bytes && is_read(alloc, out.as_slice(), schema, &row))
}

#[test]
fn takes_rows_of_1_to_7_bytes(rt: HostRuntime) -> Result<(), Fail> {
    let schema = schema_of(rt.alloc(), "t")?;
    for bytes in 1..8 {
        assert!(rt; is_kept(rt.alloc(), &schema, 1, bytes)?, "{bytes}");
    }
    Ok(())
}

#[test]
fn takes_rows_of_8_to_2000_bytes(rt: HostRuntime) -> Result<(), Fail> {
    let schema = schema_of(rt.alloc(), "tttttttt")?;
    for bytes in 8..=2000 {
        assert!(rt; is_kept(rt.alloc(), &schema, 8, bytes)?, "{bytes}");
    }
    Ok(())
}

#[test]
fn refuses_a_row_of_2001_bytes(rt: HostRuntime) -> Result<(), Fail> {
    let schema = schema_of(rt.alloc(), "tttttttt")?;
    let row = row_of_length(rt.alloc(), 8, 2001)?;
    let mut out = Vec::from_slice(rt.alloc(), b"9")?;
    let answer = spelt(rt.alloc(), &mut out, &row, &schema)?;
    assert!(rt; answer.err() == Some(RowFault::TooLong { bytes: 2001 }));
    assert!(rt; out.as_slice() == b"9".as_slice());
    Ok(())
}

// No row takes no byte: the first value is at fault.
#[test]
fn refuses_no_byte(rt: HostRuntime) -> Result<(), Fail> {
    let schema = schema_of(rt.alloc(), "t")?;
    assert!(rt; check(&[], &schema) == Err(0));
    Ok(())
}

const INTS: &str = "iiiiiiiiiiiiiiiiiiiiiiiiiiiiiiii";

const TEXTS: &str = "tttttttttttttttttttttttttttttttt";

// Schemas, a byte that stands 4,096 times, and what it is.
const PAGES: [(&str, u8, Result<(), u16>); 6] = [
    // Eight empty texts.
    ("tttttttt", 0, Err(8)),
    // A text of 255 bytes that are no UTF-8.
    ("tttttttt", 255, Err(0)),
    // Eight texts of 97 bytes.
    ("tttttttt", b'a', Err(784)),
    // Thirty-two texts of 127 bytes.
    (TEXTS, 127, Ok(())),
    (INTS, 255, Err(256)),
    ("it", 255, Err(8)),
];

#[test]
fn checks_4096_bytes(rt: HostRuntime) -> Result<(), Fail> {
    for (kinds, byte, want) in PAGES {
        let schema = schema_of(rt.alloc(), kinds)?;
        assert!(rt; check(&[byte; 4096], &schema) == want, "{kinds} of {byte}");
    }
    Ok(())
}
