// Queries whose names are resolved, and the rows that they give.
ghost use Rattle.std.specs.Prelude.{◌≡◌, IfOk};

use crate::Cmp;
use hv_row::{Bytes, Copied, Listed, Rows, Value};
use sqlite_items::Boxed;
use std::alloc::{AllocError, Global};

/// A column of a FROM place; both count from 0.
#[derive(Debug, Clone, Copy, PartialEq, Eq)]
pub struct ColRef {
    pub place: u8,
    pub column: u8,
}

/// Columns in order.
pub type ColRefs = Listed<ColRef>;

/// One side of a comparison.
#[derive(Debug, PartialEq, Eq, Drop)]
pub enum Operand {
    Col(ColRef),
    Lit(Value),
}

impl Copied for Operand {
    fn copy(&self, alloc: Global) -> Result<Operand, AllocError> {
        match self {
            Operand::Col(column) => Ok(Operand::Col(*column)),
            Operand::Lit(value) => Ok(Operand::Lit(value.copy(alloc)?)),
        }
    }
}

/// A condition on a combination of rows.
#[derive(Debug, Drop)]
pub enum Cond {
    Always,
    Test(Operand, Cmp, Operand),
    All(sqlite_items::Items<Cond>),
    Any(sqlite_items::Items<Cond>),
    Not(Boxed<Cond>),
}

impl Copied for Cond {
    fn copy(&self, alloc: Global) -> Result<Cond, AllocError> {
        copy_cond(alloc, self)
    }
}

#[cycle(copy_cond)]
fn copy_conds(alloc: Global, conds: &[Cond]) -> Result<sqlite_items::Items<Cond>, AllocError>
    ensures { IfOk result (λ copies. copies ≡ conds.now) }
{
    let mut copies = sqlite_items::Items::from_vec(Vec::with_capacity(alloc, conds.len())?);
    for cond in conds {
        copies.push(copy_cond(alloc, cond)?)?;
    }
    Ok(copies)
}

#[cycle(copy_cond)]
fn copy_cond(alloc: Global, cond: &Cond) -> Result<Cond, AllocError>
    ensures { IfOk result (λ copy. copy ≡ cond.now) }
{
    match cond {
        Cond::Always => Ok(Cond::Always),
        Cond::Test(left, cmp, right) => {
            Ok(Cond::Test(left.copy(alloc)?, *cmp, right.copy(alloc)?))
        }
        Cond::All(conds) => Ok(Cond::All(copy_conds(alloc, conds.as_slice())?)),
        Cond::Any(conds) => Ok(Cond::Any(copy_conds(alloc, conds.as_slice())?)),
        Cond::Not(cond) => Ok(Cond::Not(Boxed::new(alloc, copy_cond(alloc, cond.get())?)?)),
    }
}

/// An item of a select list.
#[derive(Debug, Clone, Copy, PartialEq, Eq)]
pub enum Item {
    Col(ColRef),
    /// The number of members.
    Count,
    /// The number of members that have a value there.
    CountOf(ColRef),
    Sum(ColRef),
    Least(ColRef),
    Greatest(ColRef),
}

/// The items of a select list, in order.
pub type Items = Listed<Item>;

/// The numbers of the tables of the FROM places; a table's number is its place in the order of creation, from 0.
pub type Places = Listed<u32>;

/// An order key: the number of an item, from 0, and whether it falls.
#[derive(Debug, Clone, Copy, PartialEq, Eq)]
pub struct SortKey {
    pub item: u8,
    pub down: bool,
}

/// Order keys, the first one first.
pub type SortKeys = Listed<SortKey>;

/// A query whose names are resolved. It is grouped if it has group columns or an aggregate; without order keys the limit counts for nothing.
#[derive(Debug, Drop)]
pub struct BoundQuery {
    pub places: Places,
    pub cond: Cond,
    pub items: Items,
    pub grouped: bool,
    pub groups: ColRefs,
    pub order: SortKeys,
    pub limit: Option<u64>,
}

impl Copied for BoundQuery {
    fn copy(&self, alloc: Global) -> Result<BoundQuery, AllocError> {
        Ok(BoundQuery {
            places: copy_plain(alloc, &self.places)?,
            cond: self.cond.copy(alloc)?,
            items: copy_plain(alloc, &self.items)?,
            grouped: self.grouped,
            groups: copy_plain(alloc, &self.groups)?,
            order: copy_plain(alloc, &self.order)?,
            limit: self.limit,
        })
    }
}

// A list of items whose bytes can be moved at once.
fn copy_plain<T: Copy>(alloc: Global, items: &Listed<T>) -> Result<Listed<T>, AllocError>
    ensures { IfOk result (λ copy. copy ≡ items.now) }
{
    Ok(Listed::from_vec(Vec::from_slice(alloc, items.as_slice())?))
}

/// A combination: a row of each FROM place.
pub type Combo = Rows;

/// Combinations in order.
pub type Combos = Listed<Combo>;

/// The rows of each FROM place, each in its table's order.
pub type PlainTables = Listed<Rows>;

/// A cell of an output row.
#[derive(Debug, PartialEq, Eq, PartialOrd, Ord, Drop)]
pub enum Cell {
    Num(i128),
    Txt(Bytes),
}

/// An output row: a cell for each item.
pub type OutRow = Listed<Cell>;

/// Output rows in order.
pub type OutRows = Listed<OutRow>;
