// Rows and their bytes; the bytes are reasoned from the form, and no output of the crate's own.
use crate::made::{row_of, schema_of};
use hv_row::{DecodeFault, Row, Schema, check, decode, encode, encode_onto, row_fits};
use std::alloc::Global;
use std::test::Fail;

const SPELT: [(&str, i64, &str, &[u8]); 6] = [
    ("it", 1, "ab", b"\0\0\0\0\0\0\0\x01\x02ab"),
    ("i", -1, "", b"\xff\xff\xff\xff\xff\xff\xff\xff"),
    ("i", 258, "", b"\0\0\0\0\0\0\x01\x02"),
    ("i", i64::MIN, "", b"\x80\0\0\0\0\0\0\0"),
    ("tt", 0, "é", b"\x02\xc3\xa9\x02\xc3\xa9"),
    ("t", 0, "", b"\0"),
];

// Whether a row has these bytes, alone and behind others.
fn is_spelt(alloc: Global, row: &Row, schema: &Schema, want: &[u8]) -> Result<bool, Fail> {
    if !row_fits(row.as_slice(), schema.columns()) {
        return Ok(false);
    }
    let bytes = encode(alloc, row, schema).ok().ok_or("no bytes")?;
    let mut out = Vec::from_slice(alloc, b"9")?;
    let is_put = encode_onto(&mut out, row, schema).is_ok();
    Ok(bytes.as_slice() == want && is_put && is_behind_a_9(out.as_slice(), want))
}

fn is_behind_a_9(bytes: &[u8], want: &[u8]) -> bool {
    match bytes.split_first() {
        Some((first, rest)) => *first == b'9' && rest == want,
        None => false,
    }
}

// Whether bytes are read as this row.
pub fn is_read(alloc: Global, bytes: &[u8], schema: &Schema, row: &Row) -> bool {
    if bytes.len() > 4096 || check(bytes, schema).is_err() {
        return false;
    }
    match decode(alloc, bytes, schema) {
        Ok(read) => read == *row,
        Err(_) => false,
    }
}

#[test]
fn spells_rows(rt: HostRuntime) -> Result<(), Fail> {
    for (kinds, number, text, want) in SPELT {
        let schema = schema_of(rt.alloc(), kinds)?;
        let row = row_of(rt.alloc(), kinds, number, text)?;
        assert!(rt;
            is_spelt(rt.alloc(), &row, &schema, want)?,
            "{kinds} {number}"
        );
    }
    Ok(())
}

#[test]
fn reads_rows(rt: HostRuntime) -> Result<(), Fail> {
    for (kinds, number, text, bytes) in SPELT {
        let schema = schema_of(rt.alloc(), kinds)?;
        let row = row_of(rt.alloc(), kinds, number, text)?;
        assert!(rt;
            is_read(rt.alloc(), bytes, &schema, &row),
            "{kinds} {number}"
        );
    }
    Ok(())
}

const UNSPELT: [(&str, &[u8], u16); 10] = [
    ("i", b"", 0),
    ("i", b"1234567", 0),
    ("i", b"123456789", 8),
    ("t", b"", 0),
    ("t", b"\x03ab", 0),
    ("t", b"\x01\xff", 0),
    ("t", b"\x01ab", 2),
    ("tt", b"\0\x01\xc3\xa9", 1),
    ("ti", b"\x01a1234567", 2),
    ("it", b"12345678", 8),
];

// Whether both readers tell this byte.
fn is_fault(alloc: Global, bytes: &[u8], schema: &Schema, want: u16) -> bool {
    if bytes.len() > 4096 {
        return false;
    }
    let is_told = match decode(alloc, bytes, schema) {
        Err(DecodeFault::Form { byte }) => byte == want,
        _ => false,
    };
    is_told && check(bytes, schema) == Err(want)
}

#[test]
fn names_the_first_byte_at_fault(rt: HostRuntime) -> Result<(), Fail> {
    for (kinds, bytes, want) in UNSPELT {
        let schema = schema_of(rt.alloc(), kinds)?;
        assert!(rt;
            is_fault(rt.alloc(), bytes, &schema, want),
            "{kinds} at {want}"
        );
    }
    Ok(())
}
