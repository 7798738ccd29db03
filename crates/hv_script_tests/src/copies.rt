// Copies of table heads, conditions and queries.
use hv_model::{BoundQuery, Cmp, ColRef, Cond, Item, Operand, SortKey, TableHead};
use hv_row::{Bytes, ColType, Column, Columns, Copied, Listed, Schema, Value};
use sqlite_items::Boxed;
use std::alloc::{AllocError, Global};
use std::fmt::Debug;
use std::test::Fail;

// A schema of one column, of numbers and with an index.
fn schema(alloc: Global) -> Result<Schema, Fail> {
    let mut columns = Columns::new(alloc);
    columns.push(Column {
        name: Bytes::from_slice(alloc, b"id")?,
        kind: ColType::Int,
        index: true,
        range: false,
    })?;
    Ok(Schema::checked(columns).ok_or("no schema")?)
}

// Whether a copy is shown as what it copies.
fn is_copied<T: Copied + Debug + Drop>(alloc: Global, item: &T) -> Result<bool, AllocError> {
    let copy = item.copy(alloc)?;
    let shown = format!(in alloc; "{copy:?}")?;
    Ok(shown == format!(in alloc; "{item:?}")?)
}

fn table_head(alloc: Global) -> Result<TableHead, Fail> {
    Ok(TableHead {
        number: 3,
        name: Bytes::from_slice(alloc, b"t")?,
        schema: schema(alloc)?,
    })
}

#[test]
fn table_heads_are_copied(rt: HostRuntime) -> Result<(), Fail> {
    let head = table_head(rt.alloc())?;
    assert!(rt; is_copied(rt.alloc(), &head)?);
    assert!(rt; head.copy(rt.alloc())?.number == 3);
    Ok(())
}

// 0.0 = 7
fn equal() -> Cond {
    let id = Operand::Col(ColRef {
        place: 0,
        column: 0,
    });
    Cond::Test(id, Cmp::Eq, Operand::Lit(Value::Int(7)))
}

// 0.1 < 'x'
fn less(alloc: Global) -> Result<Cond, AllocError> {
    let name = Operand::Col(ColRef {
        place: 0,
        column: 1,
    });
    let text = Operand::Lit(Value::Text(Bytes::from_slice(alloc, b"x")?));
    Ok(Cond::Test(name, Cmp::Lt, text))
}

// NOT 0.0 = 7 OR always
fn either(alloc: Global) -> Result<Cond, AllocError> {
    let mut conds = sqlite_items::Items::new(alloc);
    conds.push(Cond::Not(Boxed::new(alloc, equal())?))?;
    conds.push(Cond::Always)?;
    Ok(Cond::Any(conds))
}

// 0.1 < 'x' AND ( NOT 0.0 = 7 OR always )
fn condition(alloc: Global) -> Result<Cond, AllocError> {
    let mut conds = sqlite_items::Items::new(alloc);
    conds.push(less(alloc)?)?;
    conds.push(either(alloc)?)?;
    Ok(Cond::All(conds))
}

#[test]
fn conditions_are_copied(rt: HostRuntime) -> Result<(), Fail> {
    let cond = condition(rt.alloc())?;
    assert!(rt; is_copied(rt.alloc(), &cond)?);
    Ok(())
}

const COLUMN: ColRef = ColRef {
    place: 0,
    column: 1,
};

const SECOND_DOWN: SortKey = SortKey {
    item: 1,
    down: true,
};

fn list<T: Copy>(alloc: Global, items: &[T]) -> Result<Listed<T>, AllocError> {
    Ok(Listed::from_vec(Vec::from_slice(alloc, items)?))
}

// Over one place, a column and a count by that column and in falling order of the count, at most 5.
fn query(alloc: Global) -> Result<BoundQuery, AllocError> {
    Ok(BoundQuery {
        places: list(alloc, &[3])?,
        cond: condition(alloc)?,
        items: list(alloc, &[Item::Col(COLUMN), Item::Count])?,
        grouped: true,
        groups: list(alloc, &[COLUMN])?,
        order: list(alloc, &[SECOND_DOWN])?,
        limit: Some(5),
    })
}

#[test]
fn queries_are_copied(rt: HostRuntime) -> Result<(), Fail> {
    let query = query(rt.alloc())?;
    assert!(rt; is_copied(rt.alloc(), &query)?);
    assert!(rt; query.copy(rt.alloc())?.limit == Some(5));
    Ok(())
}
