// Comma-separated data and the rows that it spells. What is wanted follows RFC 4180, what the library csv reads beyond it, and the rules for fields.
use crate::made::schema_of;
use hv_import::{RowsFault, rows_of};
use hv_row::{PackedRows, ValueRef};
use std::alloc::Global;
use std::test::Fail;

// A value, as its column shows it.
fn show(out: &mut String, value: Option<ValueRef<'_>>) -> Result<(), Fail> {
    match value {
        Some(ValueRef::Int(number)) => write!(out, "{number}")?,
        Some(ValueRef::Text(text)) => match str::from_utf8(text) {
            Ok(text) => write!(out, "{text:?}")?,
            Err(_) => return Err(Fail::from("a text that is none")),
        },
        None => return Err(Fail::from("a row that is too short")),
    }
    Ok(())
}

// The values of rows, each before a comma, and a semicolon behind each row.
fn shown(alloc: Global, rows: &PackedRows, columns: usize) -> Result<String, Fail> {
    let mut out = String::new(alloc);
    for place in 0..rows.len() {
        for column in 0..columns {
            show(&mut out, rows.value_at(place, column))?;
            out.push(',')?;
        }
        out.push(';')?;
    }
    Ok(out)
}

// The rows that data spells under a schema of these columns, or why it spells none.
fn answer(alloc: Global, kinds: &str, text: &[u8]) -> Result<String, Fail> {
    let schema = schema_of(alloc, kinds)?;
    match rows_of(alloc, text, &schema) {
        Ok(rows) => shown(alloc, &rows, kinds.len()),
        Err(RowsFault::BadRow { row, column }) => Ok(format!(in alloc; "bad {row} {column}")?),
        Err(RowsFault::LongRow { row }) => Ok(format!(in alloc; "long {row}")?),
        Err(RowsFault::Memory) => Err(Fail::from("memory")),
    }
}

// Whether one column of this kind gives this for each of the data.
fn are(alloc: Global, kinds: &str, cases: &[(&[u8], &str)]) -> Result<bool, Fail> {
    for (text, want) in cases {
        if answer(alloc, kinds, text)?.as_str() != *want {
            return Ok(false);
        }
    }
    Ok(true)
}

// An optional sign and digits, in the range of 64 bits.
const NUMBERS: [(&[u8], &str); 9] = [
    (b"0", "0,;"),
    (b"+5", "5,;"),
    (b"-5", "-5,;"),
    (b"-0", "0,;"),
    (b"007", "7,;"),
    (b"\"12\"", "12,;"),
    (b"9223372036854775807", "9223372036854775807,;"),
    (b"-9223372036854775808", "-9223372036854775808,;"),
    (b"+0009223372036854775807", "9223372036854775807,;"),
];

const NO_NUMBERS: [&[u8]; 16] = [
    b"\"\"",
    b"+",
    b"-",
    b"--5",
    b"+-5",
    b" 5",
    b"5 ",
    b"5.0",
    b"1e3",
    b"0x10",
    b"five",
    b"1_000",
    b"\xd9\xa3",
    b"\xff",
    b"9223372036854775808",
    b"-9223372036854775809",
];

#[test]
fn reads_numbers(rt: HostRuntime) -> Result<(), Fail> {
    assert!(rt; are(rt.alloc(), "i", &NUMBERS)?);
    Ok(())
}

#[test]
fn reads_nothing_else_as_a_number(rt: HostRuntime) -> Result<(), Fail> {
    for text in NO_NUMBERS {
        assert!(rt; answer(rt.alloc(), "i", text)?.as_str() == "bad 1 1");
    }
    Ok(())
}

// Records of one text.
const TEXTS: [(&[u8], &str); 20] = [
    (b"", ""),
    (b"ab", "\"ab\",;"),
    (b"ab\n", "\"ab\",;"),
    (b"ab\r\ncd\r\n", "\"ab\",;\"cd\",;"),
    (b"ab\rcd", "\"ab\",;\"cd\",;"),
    (b"\n\n", ""),
    (b"\nab\n\n\r\ncd\n\n", "\"ab\",;\"cd\",;"),
    (b"\"\"", "\"\",;"),
    (b"\"\"\n\"\"\n", "\"\",;\"\",;"),
    (b" ab ", "\" ab \",;"),
    (b"\"ab\"\n", "\"ab\",;"),
    (b"\"a,b\"\n", "\"a,b\",;"),
    (b"\"a\"\"b\"\n", "\"a\\\"b\",;"),
    (b"\"a\nb\"\nc", "\"a\\nb\",;\"c\",;"),
    (b"\"a\r\nb\"", "\"a\\r\\nb\",;"),
    (b"a\"b", "\"a\\\"b\",;"),
    (b"\"a\"b", "\"ab\",;"),
    (b"\"a\nb", "\"a\\nb\",;"),
    (b"\xef\xbb\xbfab", "\"ab\",;"),
    (b"\xc3\xa9", "\"\u{e9}\",;"),
];

#[test]
fn reads_texts(rt: HostRuntime) -> Result<(), Fail> {
    assert!(rt; are(rt.alloc(), "t", &TEXTS)?);
    Ok(())
}

// Bytes that are no UTF-8, alone and behind a row.
const NO_TEXTS: [(&[u8], &str); 4] = [
    (b"\xff", "bad 1 1"),
    (b"ab\n\xc3", "bad 2 1"),
    (b"\xc0\x80", "bad 1 1"),
    (b"\"\xed\xa0\x80\"", "bad 1 1"),
];

#[test]
fn reads_nothing_else_as_a_text(rt: HostRuntime) -> Result<(), Fail> {
    assert!(rt; are(rt.alloc(), "t", &NO_TEXTS)?);
    Ok(())
}

// Records of a number and a text: the number of fields is seen first, then the first column that is none.
const RECORDS: [(&[u8], &str); 12] = [
    (b"1,a", "1,\"a\",;"),
    (b"1,a\n-2,\n", "1,\"a\",;-2,\"\",;"),
    (b"1,\"a\"\r\n\r\n2,\"b,c\"\r\n", "1,\"a\",;2,\"b,c\",;"),
    (b"1", "bad 1 0"),
    (b"x", "bad 1 0"),
    (b"1,a,b", "bad 1 0"),
    (b"1,a\n1,a,\n", "bad 2 0"),
    (b",", "bad 1 1"),
    (b"x,a", "bad 1 1"),
    (b"x,\xff", "bad 1 1"),
    (b"1,\xff", "bad 1 2"),
    (b"1,a\nx,a\n1\n", "bad 2 1"),
];

#[test]
fn reads_records(rt: HostRuntime) -> Result<(), Fail> {
    assert!(rt; are(rt.alloc(), "it", &RECORDS)?);
    Ok(())
}

// Fields of these lengths, separated by commas, in one record.
fn record_of(alloc: Global, lengths: &[usize]) -> Result<Vec<u8>, Fail> {
    let mut text = Vec::new(alloc);
    for (at, length) in lengths.iter().enumerate() {
        if at > 0 {
            text.push(b',')?;
        }
        for _ in 0..*length {
            text.push(b'a')?;
        }
    }
    Ok(text)
}

// Whether texts of these lengths are told so; a row that is read shows them, so only its end is looked at.
fn is_told(alloc: Global, kinds: &str, lengths: &[usize], want: &str) -> Result<bool, Fail> {
    let text = record_of(alloc, lengths)?;
    Ok(answer(alloc, kinds, text.as_slice())?.ends_with(want))
}

#[test]
fn reads_texts_of_255_bytes(rt: HostRuntime) -> Result<(), Fail> {
    assert!(rt; is_told(rt.alloc(), "t", &[255], "aaa\",;")?);
    assert!(rt; is_told(rt.alloc(), "t", &[256], "bad 1 1")?);
    Ok(())
}

// A text takes a byte more than it has.
#[test]
fn reads_rows_of_2000_bytes(rt: HostRuntime) -> Result<(), Fail> {
    let whole = [249, 249, 249, 249, 249, 249, 249, 249];
    let longer = [249, 249, 249, 249, 249, 249, 249, 250];
    assert!(rt; is_told(rt.alloc(), "tttttttt", &whole, "aaa\",;")?);
    assert!(rt; is_told(rt.alloc(), "tttttttt", &longer, "long 1")?);
    Ok(())
}

// So many records of one digit.
fn digits(alloc: Global, count: u32) -> Result<Vec<u8>, Fail> {
    let mut text = Vec::new(alloc);
    for _ in 0..count {
        text.extend_from_slice(b"1\n")?;
    }
    Ok(text)
}

// How many rows so many records spell.
fn count_of(alloc: Global, count: u32) -> Result<Result<usize, RowsFault>, Fail> {
    let text = digits(alloc, count)?;
    let schema = schema_of(alloc, "i")?;
    match rows_of(alloc, text.as_slice(), &schema) {
        Ok(rows) => Ok(Ok(rows.len())),
        Err(fault) => Ok(Err(fault)),
    }
}

#[test]
fn reads_a_million_records(rt: HostRuntime) -> Result<(), Fail> {
    assert!(rt; count_of(rt.alloc(), 1_000_000)? == Ok(1_000_000));
    let past = RowsFault::BadRow {
        row: 1_000_001,
        column: 0,
    };
    assert!(rt; count_of(rt.alloc(), 1_000_001)? == Err(past));
    Ok(())
}
