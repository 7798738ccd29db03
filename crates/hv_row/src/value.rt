// Values of a column.
ghost use Rattle.std.specs.Prelude.{◌≡◌};
ghost use Rattle.hv_row.specs.Value.{type_of, value_order};

use crate::{Bytes, Copied, Listed};
use std::alloc::{AllocError, Global};
use std::cmp::Ordering;

/// A value: a signed 64-bit number or a text of UTF-8 bytes. Numbers are ordered by value, texts by bytes.
#[derive(Debug, PartialEq, Eq, PartialOrd, Ord, Hash, Drop)]
pub enum Value {
    Int(i64),
    Text(Bytes),
}

/// The type of a column.
#[derive(Debug, Clone, Copy, PartialEq, Eq)]
pub enum ColType {
    Int,
    Text,
}

/// A row: a value for each column, in column order.
pub type Row = Listed<Value>;

/// Rows in order.
pub type Rows = Listed<Row>;

/// How two values of one type are ordered: numbers by value, texts by their bytes, a text before each longer one that it begins.
pub fn compare(a: &Value, b: &Value) -> Ordering
    requires { type_of a.now ≡ type_of b.now }
    ensures ordered { result ≡ value_order a.now b.now }
    ensures derived { result ≡ ⟦<Value as Ord>⟧.cmp a.now b.now }
{
    a.cmp(b)
}

impl Copied for Value {
    fn copy(&self, alloc: Global) -> Result<Value, AllocError> {
        match self {
            Value::Int(number) => Ok(Value::Int(*number)),
            Value::Text(text) => Ok(Value::Text(text.copy(alloc)?)),
        }
    }
}
