// Columns and schemas.
ghost use Rattle.std.specs.Prelude.{◌≡◌, ◌↔◌, false, IfOk, IfSome, IsSome, IsTrue};
ghost use Rattle.hv_row.specs.Schema.{has_column, first_repeated, IsSchema};

use crate::{Bytes, ColType, Copied, Listed};
use std::alloc::{AllocError, Global};
use std::marker::Model;

/// The most columns that a table has.
pub const MAX_COLUMNS: usize = 32;

/// A column: its name, its type, and whether it has an index and kept ranges.
#[derive(Debug, Drop)]
pub struct Column {
    pub name: Bytes,
    pub kind: ColType,
    pub index: bool,
    pub range: bool,
}

impl Column {
    /// A column of that name and type that has no index and keeps no ranges.
    pub fn plain(alloc: Global, name: &[u8], kind: ColType) -> Result<Column, AllocError>
        ensures { IfOk result (λ column. column ≡ record { name = name.now; kind = kind; index = false; range = false }) }
    {
        Ok(Column {
            name: Bytes::from_slice(alloc, name)?,
            kind,
            index: false,
            range: false,
        })
    }
}

impl Copied for Column {
    fn copy(&self, alloc: Global) -> Result<Column, AllocError> {
        Ok(Column {
            name: self.name.copy(alloc)?,
            kind: self.kind,
            index: self.index,
            range: self.range,
        })
    }
}

/// Columns in order.
pub type Columns = Listed<Column>;

/// The columns of a table: 1 to 32 with distinct names, as contracts know of each.
#[derive(Debug, Drop)]
pub struct Schema {
    columns: Columns,
}

impl Model for Schema {
    ghost use Rattle.std.specs.Prelude.{List};
    ghost use Rattle.hv_row.specs.declared.schema.Column.{Column};

    ghost Value = { List Column };

    ghost use Rattle.hv_row.specs.Schema.{IsSchema};

    ghost view = { λ schema. schema.columns };

    ghost invariant = { λ schema. IsSchema schema.columns };
}

impl Schema {
    /// The schema of these columns, which the caller has tested.
    pub fn new(columns: Columns) -> Schema
        requires { IsSchema columns }
        ensures { result ≡ columns }
    {
        Schema { columns }
    }

    /// The schema of these columns; `None` where they are not those of a table, as `is_schema` tests.
    pub fn checked(columns: Columns) -> Option<Schema>
        ensures same { IfSome result (λ schema. schema ≡ columns) }
        ensures some { IsSome result ↔ IsSchema columns }
    {
        if !is_schema(columns.as_slice()) {
            return None;
        }
        Some(Schema { columns })
    }

    pub fn columns(&self) -> &[Column]
        ensures same { result.now ≡ self.now }
        ensures schema { IsSchema self.now }
    {
        self.columns.as_slice()
    }

    /// The columns back; takes no memory.
    pub fn into_columns(self) -> Columns
        ensures same { result ≡ self }
        ensures schema { IsSchema self }
    {
        let Schema { columns } = self;
        columns
    }
}

impl Copied for Schema {
    fn copy(&self, alloc: Global) -> Result<Schema, AllocError> {
        Ok(Schema {
            columns: self.columns.copy(alloc)?,
        })
    }
}

/// Whether one of the columns has this name, byte for byte.
pub fn has_column(columns: &[Column], name: &Bytes) -> bool
    ensures { result ≡ has_column columns.now name.now }
{
    columns.iter().any(|column| column.name.equals(name))
}

/// The place, counted from 0, of the first column whose name one before it has; `None` where the names are distinct.
/// A table has no two columns of one name (ISO/IEC 9075, table definition).
pub fn first_repeated(columns: &[Column]) -> Option<usize>
    ensures { result ≡ first_repeated columns.now }
{
    for (at, column) in columns.iter().enumerate() {
        if has_column(&columns[..at], &column.name) {
            return Some(at);
        }
    }
    None
}

/// Whether these are the columns of a table: 1 to 32 with distinct names (this project's own limit).
pub fn is_schema(columns: &[Column]) -> bool
    ensures { IsTrue result ↔ IsSchema columns.now }
{
    !columns.is_empty() && columns.len() <= MAX_COLUMNS && first_repeated(columns).is_none()
}
