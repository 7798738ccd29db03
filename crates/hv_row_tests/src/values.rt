// Values, rows and schemas; the expected values are reasoned, and no output of the crate's own.
use crate::made::{column, columns_of, row_of, schema_of, text};
use hv_row::{
    Bytes, ColType, Column, Columns, Copied, MAX_COLUMNS, Row, Value, compare, first_repeated,
    is_text, row_fits, row_length,
};
use std::alloc::Global;
use std::cmp::Ordering;
use std::hash::{DefaultHasher, Hash, Hasher};
use std::test::Fail;

const NUMBER_PAIRS: [(i64, i64, Ordering); 3] = [
    (-1, 0, Ordering::Less),
    (7, 7, Ordering::Equal),
    (i64::MAX, i64::MIN, Ordering::Greater),
];

#[test]
fn orders_numbers_by_value(rt: HostRuntime) {
    for (a, b, want) in NUMBER_PAIRS {
        assert!(rt;
            compare(&Value::Int(a), &Value::Int(b)) == want,
            "{a} and {b}"
        );
    }
}

const TEXT_PAIRS: [(&str, &str, Ordering); 3] = [
    ("b", "aa", Ordering::Greater),
    ("a", "aa", Ordering::Less),
    ("ab", "ab", Ordering::Equal),
];

fn order_of_texts(alloc: Global, a: &str, b: &str) -> Result<Ordering, Fail> {
    let a = Value::Text(Bytes::from_slice(alloc, a.as_bytes())?);
    let b = Value::Text(Bytes::from_slice(alloc, b.as_bytes())?);
    Ok(compare(&a, &b))
}

#[test]
fn orders_texts_by_bytes(rt: HostRuntime) -> Result<(), Fail> {
    for (a, b, want) in TEXT_PAIRS {
        assert!(rt; order_of_texts(rt.alloc(), a, b)? == want, "{a} and {b}");
    }
    Ok(())
}

#[test]
fn copies_rows(rt: HostRuntime) -> Result<(), Fail> {
    let row = row_of(rt.alloc(), "it", 1, "ab")?;
    let copy = row.copy(rt.alloc())?;
    assert!(rt; copy == row);
    assert!(rt; copy.len() == 2);
    Ok(())
}

fn is_range_column_b(column: &Column) -> bool {
    column.name.as_slice() == b"b".as_slice()
        && column.kind == ColType::Text
        && !column.index
        && column.range
}

#[test]
fn copies_schemas(rt: HostRuntime) -> Result<(), Fail> {
    let copy = schema_of(rt.alloc(), "it")?.copy(rt.alloc())?;
    let last = copy.columns().last().ok_or("no column")?;
    assert!(rt; is_range_column_b(last));
    assert!(rt; copy.into_columns().len() == 2);
    Ok(())
}

const NAME_LISTS: [(&str, Option<usize>); 4] = [
    ("", None),
    ("abc", None),
    ("abcba", Some(3)),
    ("aa", Some(1)),
];

// The first repeated name of columns whose names are one letter each.
fn repeated(alloc: Global, names: &str) -> Result<Option<usize>, Fail> {
    let mut columns = Columns::new(alloc);
    for name in names.as_bytes().chunks(1) {
        columns.push(column(alloc, name, ColType::Int)?)?;
    }
    Ok(first_repeated(columns.as_slice()))
}

#[test]
fn finds_the_first_repeated_name(rt: HostRuntime) -> Result<(), Fail> {
    for (names, want) in NAME_LISTS {
        assert!(rt; repeated(rt.alloc(), names)? == want, "{names}");
    }
    Ok(())
}

// How long a row is, where these columns may hold it.
fn length_under(row: &Row, columns: &Columns) -> Option<usize> {
    if columns.len() > MAX_COLUMNS || !row_fits(row.as_slice(), columns.as_slice()) {
        return None;
    }
    Some(row_length(row.as_slice(), columns.as_slice()))
}

#[test]
fn tells_how_long_a_row_is(rt: HostRuntime) -> Result<(), Fail> {
    let columns = columns_of(rt.alloc(), "it")?;
    let row = row_of(rt.alloc(), "it", 1, "ab")?;
    assert!(rt; length_under(&row, &columns) == Some(11));
    Ok(())
}

#[test]
fn takes_texts_of_at_most_255_bytes(rt: HostRuntime) {
    let bytes = [b'a'; 256];
    assert!(rt; is_text(&bytes[..255]));
    assert!(rt; !is_text(&bytes));
}

#[test]
fn takes_texts_of_utf_8(rt: HostRuntime) {
    assert!(rt; is_text("é".as_bytes()));
    assert!(rt; !is_text(&[0xff]));
}

fn hash_of(value: &Value) -> u64 {
    let mut hasher = DefaultHasher::new();
    value.hash(&mut hasher);
    hasher.finish()
}

#[test]
fn hashes_equal_values_alike(rt: HostRuntime) -> Result<(), Fail> {
    let value = text(rt.alloc(), "ab")?;
    let copy = value.copy(rt.alloc())?;
    assert!(rt; hash_of(&value) == hash_of(&copy));
    Ok(())
}
