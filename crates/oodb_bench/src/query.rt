// Queries over a table in memory, by the plain executor.
use hv_bind::{bind, places};
use hv_expr::naive;
use hv_model::{Ast, BoundQuery, Cell, OutRow, PlainTables, SelectAst, TableHead};
use hv_row::{Bytes, ColType, Column, Columns, Row, Rows, Schema, Value};
use hv_sql::parse;
use std::alloc::{AllocError, Global};

/// What is done with the table.
#[derive(Clone, Copy, Debug)]
pub enum Query {
    /// Its rows are only made, and looked at.
    Table,
    /// All rows are put in an order.
    Order,
    /// They are grouped.
    Group,
    /// Those that meet a condition are counted.
    Count,
}

impl Query {
    /// The query of this name.
    pub fn named(name: &str) -> Option<Query> {
        match name {
            "table" => Some(Query::Table),
            "order" => Some(Query::Order),
            "group" => Some(Query::Group),
            "count" => Some(Query::Count),
            _ => None,
        }
    }

    // Its statement, where it has one.
    fn statement(self) -> Option<&'static [u8]> {
        match self {
            Query::Table => None,
            Query::Order => Some(b"SELECT * FROM t ORDER BY n DESC, a"),
            Query::Group => Some(
                b"SELECT n, COUNT(*), SUM(a), MIN(b) FROM t GROUP BY n ORDER BY n",
            ),
            Query::Count => Some(b"SELECT COUNT(*) FROM t WHERE a < 1073741824 AND NOT n = 7"),
        }
    }
}

/// What is looked at of the rows of an answer.
#[derive(Clone, Copy, Debug)]
pub enum Look {
    /// The first one.
    First,
    /// All, in their order.
    Whole,
}

/// Makes a table of so many rows, answers the query, and gives a sum over what is looked at of the answer: of the table itself, where nothing is asked.
pub fn ask(alloc: Global, query: Query, look: Look, rows: u32) -> Result<u64, AllocError> {
    let rows = table(alloc, rows)?;
    match query.statement() {
        None => Ok(sum_of_rows(looked_at(look, rows.as_slice()))),
        Some(text) => {
            let mut tables = PlainTables::new(alloc);
            tables.push(rows)?;
            answer(alloc, text, look, &tables)
        }
    }
}

// Those of these rows that are looked at.
fn looked_at<T>(look: Look, rows: &[T]) -> &[T] {
    match look {
        Look::First => &rows[..rows.len().min(1)],
        Look::Whole => rows,
    }
}

// The sum over the answer of a statement.
fn answer(alloc: Global, text: &[u8], look: Look, tables: &PlainTables) -> Result<u64, AllocError> {
    if text.len() > 67_108_864 {
        return Err(AllocError);
    }
    let Ok(Ast::Select(select)) = parse(alloc, text) else {
        return Err(AllocError);
    };
    let query = bound(alloc, &select)?;
    match naive(alloc, &query, tables) {
        Ok(rows) => Ok(sum_of_answer(looked_at(look, rows.as_slice()))),
        Err(_) => Err(AllocError),
    }
}

// The bound query of a select of one place.
fn bound(alloc: Global, select: &SelectAst) -> Result<BoundQuery, AllocError> {
    if select.places.len() != 1 || places(select, None).is_some() {
        return Err(AllocError);
    }
    match bind(alloc, select, &[head(alloc)?]) {
        Ok(query) => Ok(query),
        Err(_) => Err(AllocError),
    }
}

// The head of the table.
fn head(alloc: Global) -> Result<TableHead, AllocError> {
    let mut columns = Columns::with_capacity(alloc, 3)?;
    for (name, kind) in [
        ("a", ColType::Int),
        ("b", ColType::Text),
        ("n", ColType::Int),
    ] {
        columns.push(Column::plain(alloc, name.as_bytes(), kind)?)?;
    }
    Ok(TableHead {
        number: 0,
        name: Bytes::from_slice(alloc, b"t")?,
        schema: Schema::checked(columns).ok_or(AllocError)?,
    })
}

// So many rows.
fn table(alloc: Global, count: u32) -> Result<Rows, AllocError> {
    let mut rows = Rows::with_capacity(alloc, count as usize)?;
    for number in 0..count {
        rows.push(row(alloc, number)?)?;
    }
    Ok(rows)
}

// The row of this number: a key that no other row below 2^31 has, the key's last eight digits, and one of 1,000 groups.
fn row(alloc: Global, number: u32) -> Result<Row, AllocError> {
    let key = u64::from(number).wrapping_mul(2_654_435_761) % 2_147_483_648;
    let mut row = Row::with_capacity(alloc, 3)?;
    row.push(Value::Int(key as i64))?;
    row.push(Value::Text(Bytes::from_slice(alloc, &digits(key))?))?;
    row.push(Value::Int((key % 1000) as i64))?;
    Ok(row)
}

// The last eight digits of a number.
fn digits(number: u64) -> [u8; 8] {
    let mut text = [b'0'; 8];
    let mut left = number;
    for digit in text.iter_mut().rev() {
        *digit = b'0' + (left % 10) as u8;
        left /= 10;
    }
    text
}

fn sum_of_rows(rows: &[Row]) -> u64 {
    let mut sum = 0u64;
    for row in rows {
        for value in row.iter() {
            sum = joined(
                sum,
                match value {
                    Value::Int(number) => number.unsigned_abs(),
                    Value::Text(bytes) => last_of(bytes),
                },
            );
        }
    }
    sum
}

fn sum_of_answer(rows: &[OutRow]) -> u64 {
    let mut sum = 0u64;
    for row in rows {
        for cell in row.iter() {
            sum = joined(
                sum,
                match cell {
                    Cell::Num(number) => low_bits(number.unsigned_abs()),
                    Cell::Txt(bytes) => last_of(bytes),
                },
            );
        }
    }
    sum
}

// A sum with one number more, which tells the order of its numbers.
fn joined(sum: u64, more: u64) -> u64 {
    sum.wrapping_mul(31).wrapping_add(more)
}

// The low 64 bits of a number.
fn low_bits(number: u128) -> u64 {
    (number % 18_446_744_073_709_551_616) as u64
}

// The last byte of a text, 0 of none.
fn last_of(text: &Bytes) -> u64 {
    match text.last() {
        Some(byte) => u64::from(*byte),
        None => 0,
    }
}
