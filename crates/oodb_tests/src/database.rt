// Databases of a few rows, written as text.
use hv_model::{Ast, PlainTables, TableHead};
use hv_row::{Bytes, ColType, Column, Copied, Listed, Row, Rows, Schema, Value};
use hv_sql::{SqlFault, parse};
use std::alloc::{AllocError, Global};
use std::test::Fail;

/// Tables in order of creation: the head of each, and its rows.
#[derive(Drop)]
pub struct Database {
    heads: Listed<TableHead>,
    rows: PlainTables,
}

impl Database {
    pub fn new(alloc: Global) -> Database {
        Database {
            heads: Listed::new(alloc),
            rows: Listed::new(alloc),
        }
    }

    /// The head of the table of this name.
    pub fn head(&self, name: &Bytes) -> Option<&TableHead> {
        self.heads.iter().find(|head| head.name.equals(name))
    }

    /// The rows of the table of this number.
    pub fn rows(&self, number: u32) -> Option<&Rows> {
        self.rows.get(number as usize)
    }

    /// Makes the table of a CREATE TABLE, without rows.
    pub fn create(&mut self, alloc: Global, statement: &str) -> Result<(), Fail> {
        let Ok(Ast::Create { table, columns }) = parsed(alloc, statement) else {
            return Err(Fail::from("no CREATE TABLE"));
        };
        let schema = Schema::checked(columns).ok_or("columns of no table")?;
        let number = u32::try_from(self.heads.len())?;
        self.heads.push(TableHead {
            number,
            name: table.name,
            schema,
        })?;
        self.rows.push(Listed::new(alloc))?;
        Ok(())
    }

    /// Adds a row to the table that was made last.
    pub fn add(&mut self, alloc: Global, line: &str) -> Result<(), Fail> {
        let head = self.heads.last().ok_or("a row before a table")?;
        let row = row_of(alloc, head.schema.columns(), line)?;
        let mut rows = self.rows.pop().ok_or("a row before a table")?;
        rows.push(row)?;
        self.rows.push(rows)?;
        Ok(())
    }
}

/// The tree of a statement.
pub fn parsed(alloc: Global, text: &str) -> Result<Ast, SqlFault> {
    let text = text.as_bytes();
    if text.len() > 67_108_864 {
        return Err(SqlFault::Memory);
    }
    parse(alloc, text)
}

/// A copy of a table's head.
pub fn copied(alloc: Global, head: &TableHead) -> Result<TableHead, AllocError> {
    Ok(TableHead {
        number: head.number,
        name: head.name.copy(alloc)?,
        schema: head.schema.copy(alloc)?,
    })
}

// The row of a line: a field between commas for each column.
fn row_of(alloc: Global, columns: &[Column], line: &str) -> Result<Row, Fail> {
    let mut row = Row::new(alloc);
    let mut fields = line.split(",");
    for column in columns {
        let field = fields.next().ok_or("a field is missing")?;
        row.push(value_of(alloc, column.kind, field)?)?;
    }
    match fields.next() {
        Some(_) => Err(Fail::from("a field too many")),
        None => Ok(row),
    }
}

fn value_of(alloc: Global, kind: ColType, field: &str) -> Result<Value, Fail> {
    match kind {
        ColType::Int => Ok(Value::Int(field.parse()?)),
        ColType::Text => Ok(Value::Text(Bytes::from_slice(alloc, field.as_bytes())?)),
    }
}
