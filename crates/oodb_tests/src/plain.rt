// Combinations of rows and their order, as the plain executor answers; the expected rows are reasoned, and no output of its own.
use crate::asked::{NUMBER, TEXT, grouped, is_answer, keys, query, rows, table};
use hv_expr::{NaiveFault, outputs};
use hv_model::{BoundQuery, Cmp, ColRef, Combos, Cond, Item, Operand, PlainTables};
use hv_row::{Bytes, Row, Rows, Value};
use std::alloc::Global;
use std::test::Fail;

// The number of the second table.
const OTHER_NUMBER: ColRef = ColRef {
    place: 1,
    column: 0,
};

fn two_tables(alloc: Global) -> Result<PlainTables, Fail> {
    let mut tables = PlainTables::new(alloc);
    tables.push(rows(alloc, &[(1, "a"), (2, "b"), (1, "a")])?)?;
    tables.push(rows(alloc, &[(3, "a"), (1, "b"), (2, "a")])?)?;
    Ok(tables)
}

// Whether these are the numbers of the combinations of two tables.
fn is_listed(alloc: Global, cond: Cond, want: &str) -> Result<bool, Fail> {
    let mut query = query(alloc, &[Item::Col(NUMBER), Item::Col(OTHER_NUMBER)])?;
    query.cond = cond;
    is_answer(alloc, &query, &two_tables(alloc)?, want)
}

#[test]
fn lists_all_combinations(rt: HostRuntime) -> Result<(), Fail> {
    let want = "1|3\n1|1\n1|2\n2|3\n2|1\n2|2\n1|3\n1|1\n1|2";
    assert!(rt; is_listed(rt.alloc(), Cond::Always, want)?);
    Ok(())
}

#[test]
fn lists_some_combinations(rt: HostRuntime) -> Result<(), Fail> {
    let rising = Cond::Test(Operand::Col(NUMBER), Cmp::Lt, Operand::Col(OTHER_NUMBER));
    assert!(rt; is_listed(rt.alloc(), rising, "1|3\n1|2\n2|3\n1|3\n1|2")?);
    Ok(())
}

#[test]
fn lists_one_combination_of_no_place(rt: HostRuntime) -> Result<(), Fail> {
    let counted = grouped(rt.alloc(), &[], &[Item::Count])?;
    let mut tables = PlainTables::new(rt.alloc());
    assert!(rt; is_answer(rt.alloc(), &counted, &tables, "1")?);
    tables.push(Rows::new(rt.alloc()))?;
    assert!(rt; is_answer(rt.alloc(), &counted, &tables, "0")?);
    Ok(())
}

// Order keys, a limit, and the rows (2, 'b'), (1, 'b'), (2, 'a'), (1, 'a') and (2, 'a') by them.
const ORDER_CASES: [(&[(u8, bool)], Option<u64>, &str); 8] = [
    (&[], Some(1), "2|'b'\n1|'b'\n2|'a'\n1|'a'\n2|'a'"),
    (&[(0, false)], None, "1|'a'\n1|'b'\n2|'a'\n2|'a'\n2|'b'"),
    (&[(0, true)], None, "2|'a'\n2|'a'\n2|'b'\n1|'a'\n1|'b'"),
    (&[(1, false)], None, "1|'a'\n2|'a'\n2|'a'\n1|'b'\n2|'b'"),
    (
        &[(1, true), (0, false)],
        None,
        "1|'b'\n2|'b'\n1|'a'\n2|'a'\n2|'a'",
    ),
    (&[(0, true), (1, true)], Some(3), "2|'b'\n2|'a'\n2|'a'"),
    (&[(0, false)], Some(0), "no row"),
    (
        &[(2, true)],
        Some(u64::MAX),
        "1|'a'\n1|'b'\n2|'a'\n2|'a'\n2|'b'",
    ),
];

// Whether these are the rows of a table by order keys, up to a limit.
fn is_ordered(
    alloc: Global,
    by: &[(u8, bool)],
    limit: Option<u64>,
    want: &str,
) -> Result<bool, Fail> {
    let tables = table(alloc, &[(2, "b"), (1, "b"), (2, "a"), (1, "a"), (2, "a")])?;
    let mut query = query(alloc, &[Item::Col(NUMBER), Item::Col(TEXT)])?;
    query.order = keys(alloc, by)?;
    query.limit = limit;
    is_answer(alloc, &query, &tables, want)
}

#[test]
fn orders_rows(rt: HostRuntime) -> Result<(), Fail> {
    for (by, limit, want) in ORDER_CASES {
        assert!(rt; is_ordered(rt.alloc(), by, limit, want)?, "{want}");
    }
    Ok(())
}

// Sums past 64 bits and texts alike in their first seven bytes mislead the first of the two sorts.
const LEAD_CASES: [(&[(u8, bool)], &str); 4] = [
    (
        &[(0, false)],
        "-18446744073709551616|'abcdefgb'\n0|'abcdefg'\n0|'abcdefgb'\n18446744073709551616|'abcdefga'",
    ),
    (
        &[(0, true)],
        "18446744073709551616|'abcdefga'\n0|'abcdefg'\n0|'abcdefgb'\n-18446744073709551616|'abcdefgb'",
    ),
    (
        &[(1, false)],
        "0|'abcdefg'\n18446744073709551616|'abcdefga'\n-18446744073709551616|'abcdefgb'\n0|'abcdefgb'",
    ),
    (
        &[(1, true), (0, true)],
        "0|'abcdefgb'\n-18446744073709551616|'abcdefgb'\n18446744073709551616|'abcdefga'\n0|'abcdefg'",
    ),
];

// The rows whose sums these are: a number, a text, and which group of the text it is.
const SUMMANDS: [(i64, &str, i64); 7] = [
    (i64::MAX, "abcdefga", 0),
    (i64::MAX, "abcdefga", 0),
    (2, "abcdefga", 0),
    (i64::MIN, "abcdefgb", 0),
    (i64::MIN, "abcdefgb", 0),
    (0, "abcdefgb", 1),
    (0, "abcdefg", 0),
];

const GROUP: ColRef = ColRef {
    place: 0,
    column: 2,
};

fn summand(alloc: Global, number: i64, text: &str, group: i64) -> Result<Row, Fail> {
    let mut row = Row::new(alloc);
    row.push(Value::Int(number))?;
    row.push(Value::Text(Bytes::from_slice(alloc, text.as_bytes())?))?;
    row.push(Value::Int(group))?;
    Ok(row)
}

fn summands(alloc: Global) -> Result<PlainTables, Fail> {
    let mut rows = Rows::new(alloc);
    for (number, text, group) in SUMMANDS {
        rows.push(summand(alloc, number, text, group)?)?;
    }
    let mut tables = PlainTables::new(alloc);
    tables.push(rows)?;
    Ok(tables)
}

// Whether these are the sums by order keys.
fn is_summed(alloc: Global, by: &[(u8, bool)], want: &str) -> Result<bool, Fail> {
    let items = [Item::Sum(NUMBER), Item::Col(TEXT)];
    let mut query = grouped(alloc, &[TEXT, GROUP], items.as_slice())?;
    query.order = keys(alloc, by)?;
    is_answer(alloc, &query, &summands(alloc)?, want)
}

#[test]
fn orders_rows_of_misleading_leads(rt: HostRuntime) -> Result<(), Fail> {
    for (by, want) in LEAD_CASES {
        assert!(rt; is_summed(rt.alloc(), by, want)?, "{want}");
    }
    Ok(())
}

// A query of the text and the number of rows whose number is at most 3.
fn at_most_3(alloc: Global) -> Result<BoundQuery, Fail> {
    let mut query = query(alloc, &[Item::Col(TEXT), Item::Col(NUMBER)])?;
    query.cond = Cond::Test(Operand::Col(NUMBER), Cmp::Le, Operand::Lit(Value::Int(3)));
    Ok(query)
}

#[test]
fn answers_queries(rt: HostRuntime) -> Result<(), Fail> {
    let tables = table(
        rt.alloc(),
        &[(3, "a"), (1, "c"), (2, "b"), (2, "b"), (4, "d")],
    )?;
    let query = at_most_3(rt.alloc())?;
    assert!(rt; is_answer(rt.alloc(), &query, &tables, "'a'|3\n'c'|1\n'b'|2\n'b'|2")?);
    Ok(())
}

#[test]
fn answers_queries_in_order(rt: HostRuntime) -> Result<(), Fail> {
    let tables = table(
        rt.alloc(),
        &[(3, "a"), (1, "c"), (2, "b"), (2, "b"), (4, "d")],
    )?;
    let mut query = at_most_3(rt.alloc())?;
    query.order = keys(rt.alloc(), &[(0, true)])?;
    query.limit = Some(2);
    assert!(rt; is_answer(rt.alloc(), &query, &tables, "'c'|1\n'b'|2")?);
    Ok(())
}

// Whether an item over no combination, without groups, is refused.
fn is_refused(alloc: Global, item: Item) -> Result<bool, Fail> {
    let query = query(alloc, &[item])?;
    let answer = outputs(alloc, &query, &Combos::new(alloc));
    Ok(matches!(answer, Err(NaiveFault::EmptyAggregate)))
}

#[test]
fn refuses_aggregates_over_nothing(rt: HostRuntime) -> Result<(), Fail> {
    for item in [
        Item::Sum(NUMBER),
        Item::Least(NUMBER),
        Item::Greatest(NUMBER),
    ] {
        assert!(rt; is_refused(rt.alloc(), item)?);
    }
    Ok(())
}
