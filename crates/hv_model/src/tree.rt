// Trees of statements. A byte is the place of the first byte of what it belongs to, in its statement.
ghost use Rattle.std.specs.Prelude.{◌≡◌};
ghost use Rattle.std.specs.List.{list_any};
ghost use Rattle.hv_model.specs.Sql.{is_aggregate};
ghost use Rattle.hv_model.specs.Bound.{is_grouped};

use hv_row::{Bytes, Columns, Listed, Value};
use sqlite_items::{Boxed, Items};

/// A name in a statement.
#[derive(Debug, PartialEq, Drop)]
pub struct Word {
    pub name: Bytes,
    pub byte: u32,
}

/// A number in a statement.
#[derive(Debug, Clone, Copy, PartialEq, Eq)]
pub struct Numeral {
    pub value: u64,
    pub byte: u32,
}

/// Numbers in order.
pub type Numbers = Listed<u64>;

/// A statement.
#[derive(Debug, Drop)]
pub enum Ast {
    Create { table: Word, columns: Columns },
    Import { table: Word, lines: u64 },
    Purge { chunk: u64, table: Word },
    Merge { parts: Numbers, table: Word },
    Session { name: Word },
    Barrier,
    Select(SelectAst),
}

/// A select: without WHERE the condition is `Always`, and without GROUP BY or ORDER BY that list is empty.
#[derive(Debug, Drop)]
pub struct SelectAst {
    pub items: ItemAsts,
    pub places: PlaceAsts,
    pub cond: CondAst,
    pub groups: RefAsts,
    pub order: KeyAsts,
    pub limit: Option<u64>,
}

/// A reference to a column, with the alias before its dot.
#[derive(Debug, PartialEq, Drop)]
pub struct RefAst {
    pub alias: Option<Bytes>,
    pub column: Bytes,
    pub byte: u32,
}

/// References in order.
pub type RefAsts = Listed<RefAst>;

/// What is selected.
#[derive(Debug, PartialEq, Drop)]
pub enum ItemAst {
    Star { byte: u32 },
    Col(RefAst),
    Count,
    CountOf(RefAst),
    Sum(RefAst),
    Least(RefAst),
    Greatest(RefAst),
}

/// Items in order.
pub type ItemAsts = Listed<ItemAst>;

/// A FROM place: its table, and its alias where one is written.
#[derive(Debug, PartialEq, Drop)]
pub struct PlaceAst {
    pub table: Word,
    pub alias: Option<Word>,
}

/// Places in order.
pub type PlaceAsts = Listed<PlaceAst>;

/// What an order key names: an item by number, or a column.
#[derive(Debug, PartialEq, Drop)]
pub enum KeyBy {
    Number(u64),
    Col(RefAst),
}

/// An order key; `down` with DESC.
#[derive(Debug, PartialEq, Drop)]
pub struct KeyAst {
    pub by: KeyBy,
    pub byte: u32,
    pub down: bool,
}

/// Order keys in order.
pub type KeyAsts = Listed<KeyAst>;

/// How two operands are compared.
#[derive(Debug, Clone, Copy, PartialEq, Eq)]
pub enum Cmp {
    Eq,
    Ne,
    Lt,
    Le,
    Gt,
    Ge,
}

/// One side of a comparison.
#[derive(Debug, PartialEq, Drop)]
pub enum OperandAst {
    Col(RefAst),
    Lit(Value),
}

/// A condition; `byte` is the comparison symbol's.
#[derive(Debug, Drop)]
pub enum CondAst {
    Always,
    Test {
        left: OperandAst,
        cmp: Cmp,
        right: OperandAst,
        byte: u32,
    },
    All(Items<CondAst>),
    Any(Items<CondAst>),
    Not(Boxed<CondAst>),
}

// Whether an item is an aggregate.
fn is_aggregate(item: &ItemAst) -> bool
    ensures { result ≡ is_aggregate item.now }
{
    !matches!(item, ItemAst::Star { .. } | ItemAst::Col(_))
}

/// Whether one of the items is an aggregate.
pub fn has_aggregate(items: &[ItemAst]) -> bool
    ensures { result ≡ list_any is_aggregate items.now }
{
    items.iter().any(|item| is_aggregate(item))
}

/// Whether a select is grouped: it has GROUP BY or an aggregate.
pub fn is_grouped(select: &SelectAst) -> bool
    ensures { result ≡ is_grouped select.now }
{
    !select.groups.is_empty() || has_aggregate(select.items.as_slice())
}
