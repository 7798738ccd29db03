// Lists that are one bag and lists that aren't; each answer is counted by hand.
use hv_bag::same_rows;
use hv_row::{Bytes, Row, Rows, Value};
use std::alloc::{AllocError, Global};
use std::test::Fail;

const NUMBERS: [(&[i64], &[i64], bool); 12] = [
    (&[], &[], true),
    (&[], &[0], false),
    (&[7], &[7], true),
    (&[7], &[-7], false),
    (&[1, 2, 3], &[3, 1, 2], true),
    (&[1, 2], &[1, 2, 3], false),
    (&[1, 2, 3], &[1, 2], false),
    (&[1, 1, 2], &[1, 2, 2], false),
    (&[1, 1, 2], &[1, 2], false),
    (&[2, 1, 2, 1], &[1, 1, 2, 2], true),
    (&[5, 5, 5], &[5, 5, 5, 5], false),
    (&[i64::MIN, -1, i64::MAX], &[i64::MAX, i64::MIN, -1], true),
];

const TABLES: [(&str, &str, bool); 11] = [
    ("", "", true),
    ("1,a", "1,a", true),
    ("1,a", "1,b", false),
    ("1,a", "2,a", false),
    ("1,a;2,b", "2,b;1,a", true),
    ("1,a;2,b", "1,b;2,a", false),
    ("1,a;1,a;2,b", "1,a;2,b;1,a", true),
    ("1,a;1,a;2,b", "1,a;2,b;2,b", false),
    ("1,a;1,a", "1,a", false),
    ("1,a", "1,aa", false),
    ("1", "1,", false),
];

fn same_numbers(alloc: Global, left: &[i64], right: &[i64]) -> Result<bool, AllocError> {
    same_rows(alloc, left, right)
}

fn same_tables(alloc: Global, left: &[Row], right: &[Row]) -> Result<bool, AllocError> {
    same_rows(alloc, left, right)
}

// The row of a line: a number, and behind a comma a text where there is one.
fn row_of(alloc: Global, line: &str) -> Result<Row, Fail> {
    let mut row = Row::new(alloc);
    match line.split_once(',') {
        Some((number, text)) => {
            row.push(Value::Int(number.parse()?))?;
            row.push(Value::Text(Bytes::from_slice(alloc, text.as_bytes())?))?;
        }
        None => row.push(Value::Int(line.parse()?))?,
    }
    Ok(row)
}

// The rows of lines that are parted by semicolons.
fn rows_of(alloc: Global, lines: &str) -> Result<Rows, Fail> {
    let mut rows = Rows::new(alloc);
    for line in lines.split_terminator(';') {
        rows.push(row_of(alloc, line)?)?;
    }
    Ok(rows)
}

#[test]
fn bags_of_numbers(rt: HostRuntime) -> Result<(), Fail> {
    for (left, right, want) in NUMBERS {
        assert!(rt;
            same_numbers(rt.alloc(), left, right)? == want,
            "{left:?} {right:?}"
        );
    }
    Ok(())
}

#[test]
fn bags_of_rows(rt: HostRuntime) -> Result<(), Fail> {
    for (left, right, want) in TABLES {
        let first = rows_of(rt.alloc(), left)?;
        let second = rows_of(rt.alloc(), right)?;
        let same = same_tables(rt.alloc(), first.as_slice(), second.as_slice())?;
        assert!(rt; same == want, "{left} and {right}");
    }
    Ok(())
}
