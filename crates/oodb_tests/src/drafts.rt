// Selects drafted in one line, as `select a sum(b) from t u/x where a=7 b<'x' group a order 1 b- limit 5`, and the heads of their tables.
// A byte is the place of its word in the line; a comparison's symbol is at the next byte, and its right side behind that one.
// `u/x` is the table `u` as `x`, whose alias is at the next byte; a key with `-` falls. All that stands behind `where` is to hold, and
// nothing of what stands behind `neither`.
use hv_model::{
    Cmp, CondAst, ItemAst, ItemAsts, KeyAst, KeyAsts, KeyBy, OperandAst, PlaceAst, PlaceAsts,
    RefAst, RefAsts, SelectAst, TableHead, Word,
};
use hv_row::{Bytes, ColType, Column, Columns, Schema, Value};
use sqlite_items::{Boxed, Items};
use std::alloc::Global;
use std::test::Fail;

#[derive(Debug, Clone, Copy, PartialEq, Eq)]
enum Part {
    Items,
    From,
    Where,
    Neither,
    Groups,
    Order,
    Limit,
}

fn part_of(word: &str) -> Option<Part> {
    match word {
        "select" => Some(Part::Items),
        "from" => Some(Part::From),
        "where" => Some(Part::Where),
        "neither" => Some(Part::Neither),
        "group" => Some(Part::Groups),
        "order" => Some(Part::Order),
        "limit" => Some(Part::Limit),
        _ => None,
    }
}

fn bytes(alloc: Global, text: &str) -> Result<Bytes, Fail> {
    Ok(Bytes::from_slice(alloc, text.as_bytes())?)
}

fn reference(alloc: Global, text: &str, byte: u32) -> Result<RefAst, Fail> {
    let (alias, column) = match text.split_once('.') {
        Some((alias, column)) => (Some(bytes(alloc, alias)?), column),
        None => (None, text),
    };
    let column = bytes(alloc, column)?;
    Ok(RefAst {
        alias,
        column,
        byte,
    })
}

fn item(alloc: Global, word: &str, byte: u32) -> Result<ItemAst, Fail> {
    match word {
        "*" => return Ok(ItemAst::Star { byte }),
        "count(*)" => return Ok(ItemAst::Count),
        _ => {}
    }
    let Some((kind, of)) = word.split_once('(') else {
        return Ok(ItemAst::Col(reference(alloc, word, byte)?));
    };
    let of = reference(alloc, of.trim_end_matches(')'), byte)?;
    Ok(match kind {
        "count" => ItemAst::CountOf(of),
        "sum" => ItemAst::Sum(of),
        "min" => ItemAst::Least(of),
        _ => ItemAst::Greatest(of),
    })
}

fn word_of(alloc: Global, text: &str, byte: u32) -> Result<Word, Fail> {
    let name = bytes(alloc, text)?;
    Ok(Word { name, byte })
}

fn place(alloc: Global, word: &str, byte: u32) -> Result<PlaceAst, Fail> {
    let (table, alias) = match word.split_once('/') {
        Some((table, alias)) => (table, Some(word_of(alloc, alias, byte.saturating_add(1))?)),
        None => (word, None),
    };
    let table = word_of(alloc, table, byte)?;
    Ok(PlaceAst { table, alias })
}

fn side(alloc: Global, text: &str, byte: u32) -> Result<OperandAst, Fail> {
    if let Ok(number) = text.parse() {
        return Ok(OperandAst::Lit(Value::Int(number)));
    }
    match text.strip_prefix('\'') {
        Some(text) => Ok(OperandAst::Lit(Value::Text(bytes(alloc, text.trim_end_matches('\''))?))),
        None => Ok(OperandAst::Col(reference(alloc, text, byte)?)),
    }
}

fn test(alloc: Global, word: &str, byte: u32) -> Result<CondAst, Fail> {
    for (symbol, cmp) in [
        ('=', Cmp::Eq),
        ('!', Cmp::Ne),
        ('<', Cmp::Lt),
        ('>', Cmp::Gt),
    ] {
        if let Some((left, right)) = word.split_once(symbol) {
            let left = side(alloc, left, byte)?;
            let right = side(alloc, right, byte.saturating_add(2))?;
            return Ok(CondAst::Test {
                left,
                cmp,
                right,
                byte: byte.saturating_add(1),
            });
        }
    }
    Ok(CondAst::Always)
}

fn key(alloc: Global, word: &str, byte: u32) -> Result<KeyAst, Fail> {
    let (named, down) = match word.strip_suffix('-') {
        Some(named) => (named, true),
        None => (word, false),
    };
    let by = match named.parse() {
        Ok(number) => KeyBy::Number(number),
        Err(_) => KeyBy::Col(reference(alloc, named, byte)?),
    };
    Ok(KeyAst { by, byte, down })
}

#[derive(Drop)]
struct Draft {
    items: ItemAsts,
    places: PlaceAsts,
    tests: Items<CondAst>,
    is_neither: bool,
    groups: RefAsts,
    order: KeyAsts,
    limit: Option<u64>,
}

impl Draft {
    fn push(&mut self, alloc: Global, part: Part, word: &str, byte: u32) -> Result<(), Fail> {
        match part {
            Part::Items => self.items.push(item(alloc, word, byte)?)?,
            Part::From => self.places.push(place(alloc, word, byte)?)?,
            Part::Where => self.tests.push(test(alloc, word, byte)?)?,
            Part::Neither => {
                self.tests.push(test(alloc, word, byte)?)?;
                self.is_neither = true;
            }
            Part::Groups => self.groups.push(reference(alloc, word, byte)?)?,
            Part::Order => self.order.push(key(alloc, word, byte)?)?,
            Part::Limit => self.limit = Some(word.parse()?),
        }
        Ok(())
    }

    fn finish(self, alloc: Global) -> Result<SelectAst, Fail> {
        let Draft {
            items,
            places,
            tests,
            is_neither,
            groups,
            order,
            limit,
        } = self;
        let cond = if tests.is_empty() {
            CondAst::Always
        } else if is_neither {
            CondAst::Not(Boxed::new(alloc, CondAst::Any(tests))?)
        } else {
            CondAst::All(tests)
        };
        Ok(SelectAst {
            items,
            places,
            cond,
            groups,
            order,
            limit,
        })
    }
}

pub fn select(alloc: Global, line: &str) -> Result<SelectAst, Fail> {
    let mut draft = Draft {
        items: ItemAsts::new(alloc),
        places: PlaceAsts::new(alloc),
        tests: Items::new(alloc),
        is_neither: false,
        groups: RefAsts::new(alloc),
        order: KeyAsts::new(alloc),
        limit: None,
    };
    let mut part = Part::Items;
    let mut byte: u32 = 0;
    for word in line.split(' ') {
        match part_of(word) {
            Some(next) => part = next,
            None => draft.push(alloc, part, word, byte)?,
        }
        byte = byte
            .saturating_add(u32::try_from(word.len())?)
            .saturating_add(1);
    }
    draft.finish(alloc)
}

// Table `u` has the number 5 and the columns `a INT, c TEXT`; any other has the number 3 and `a INT, b TEXT`.
fn head_of(alloc: Global, table: &Bytes) -> Result<TableHead, Fail> {
    let is_u = table.as_slice() == b"u".as_slice();
    let mut columns = Columns::new(alloc);
    columns.push(Column::plain(alloc, b"a", ColType::Int)?)?;
    let second = if is_u { "c" } else { "b" };
    columns.push(Column::plain(alloc, second.as_bytes(), ColType::Text)?)?;
    Ok(TableHead {
        number: if is_u { 5 } else { 3 },
        name: Bytes::from_slice(alloc, table.as_slice())?,
        schema: Schema::checked(columns).ok_or("no schema")?,
    })
}

// The heads of a select's places.
pub fn heads_of(alloc: Global, ast: &SelectAst) -> Result<Vec<TableHead>, Fail> {
    let mut heads = Vec::new(alloc);
    for place in ast.places.as_slice() {
        heads.push(head_of(alloc, &place.table.name)?)?;
    }
    Ok(heads)
}
