// Queries and tables that are made by hand, and what the plain executor answers.
use crate::written::{refusal_text, rows_text};
use hv_expr::{NaiveFault, naive};
use hv_model::{
    BoundQuery, ColRef, ColRefs, Cond, Item, Items, Places, PlainTables, Refusal, SortKey, SortKeys,
};
use hv_row::{Bytes, Row, Rows, Value};
use std::alloc::Global;
use std::test::Fail;

// The columns of the first table.
pub const NUMBER: ColRef = ColRef {
    place: 0,
    column: 0,
};

pub const TEXT: ColRef = ColRef {
    place: 0,
    column: 1,
};

// A row of a number and a text.
fn row(alloc: Global, number: i64, text: &str) -> Result<Row, Fail> {
    let mut row = Row::with_capacity(alloc, 2)?;
    row.push(Value::Int(number))?;
    row.push(Value::Text(Bytes::from_slice(alloc, text.as_bytes())?))?;
    Ok(row)
}

pub fn rows(alloc: Global, of: &[(i64, &str)]) -> Result<Rows, Fail> {
    let mut rows = Rows::new(alloc);
    for (number, text) in of {
        rows.push(row(alloc, *number, text)?)?;
    }
    Ok(rows)
}

// One table of these rows.
pub fn table(alloc: Global, of: &[(i64, &str)]) -> Result<PlainTables, Fail> {
    let mut tables = PlainTables::new(alloc);
    tables.push(rows(alloc, of)?)?;
    Ok(tables)
}

fn items_of(alloc: Global, given: &[Item]) -> Result<Items, Fail> {
    let mut items = Items::with_capacity(alloc, given.len())?;
    for item in given {
        items.push(*item)?;
    }
    Ok(items)
}

fn columns_of(alloc: Global, given: &[ColRef]) -> Result<ColRefs, Fail> {
    let mut columns = ColRefs::with_capacity(alloc, given.len())?;
    for column in given {
        columns.push(*column)?;
    }
    Ok(columns)
}

// Order keys, each an item and whether it falls.
pub fn keys(alloc: Global, of: &[(u8, bool)]) -> Result<SortKeys, Fail> {
    let mut keys = SortKeys::new(alloc);
    for (item, down) in of {
        keys.push(SortKey {
            item: *item,
            down: *down,
        })?;
    }
    Ok(keys)
}

// A query of all combinations, without groups and order keys.
pub fn query(alloc: Global, items: &[Item]) -> Result<BoundQuery, Fail> {
    Ok(BoundQuery {
        places: Places::new(alloc),
        cond: Cond::Always,
        items: items_of(alloc, items)?,
        grouped: false,
        groups: ColRefs::new(alloc),
        order: SortKeys::new(alloc),
        limit: None,
    })
}

// A query of groups.
pub fn grouped(alloc: Global, groups: &[ColRef], items: &[Item]) -> Result<BoundQuery, Fail> {
    let mut query = query(alloc, items)?;
    query.grouped = true;
    query.groups = columns_of(alloc, groups)?;
    Ok(query)
}

// The rows of a query as text, or its refusal.
pub fn answer_text(
    alloc: Global,
    query: &BoundQuery,
    tables: &PlainTables,
) -> Result<String, Fail> {
    match naive(alloc, query, tables) {
        Ok(rows) => rows_text(alloc, rows.as_slice()),
        Err(NaiveFault::EmptyAggregate) => refusal_text(alloc, Refusal::EmptyAggregate),
        Err(NaiveFault::Memory) => Err(Fail::from("no memory")),
    }
}

// Whether this is the answer.
pub fn is_answer(
    alloc: Global,
    query: &BoundQuery,
    tables: &PlainTables,
    want: &str,
) -> Result<bool, Fail> {
    Ok(answer_text(alloc, query, tables)?.as_str() == want)
}
