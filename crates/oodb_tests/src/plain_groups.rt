// Groups and aggregates, as the plain executor answers; the expected rows are reasoned, and no output of its own.
use crate::asked::{NUMBER, TEXT, grouped, is_answer, query, table};
use hv_model::{ColRef, Item};
use std::alloc::Global;
use std::test::Fail;

// Whether this is the answer of items over the groups of a table's rows.
fn is_over_groups(
    alloc: Global,
    of: &[(i64, &str)],
    groups: &[ColRef],
    items: &[Item],
    want: &str,
) -> Result<bool, Fail> {
    is_answer(
        alloc,
        &grouped(alloc, groups, items)?,
        &table(alloc, of)?,
        want,
    )
}

// Numbers and their sum.
const SUM_CASES: [(&[(i64, &str)], &str); 4] = [
    (
        &[(i64::MAX, "a"), (i64::MAX, "a"), (i64::MAX, "a")],
        "27670116110564327421",
    ),
    (
        &[(i64::MIN, "a"), (i64::MIN, "a"), (i64::MIN, "a")],
        "-27670116110564327424",
    ),
    (&[(i64::MAX, "a"), (i64::MIN, "a"), (0, "a")], "-1"),
    (&[(7, "a"), (7, "a"), (-1, "a")], "13"),
];

#[test]
fn adds_beyond_64_bits(rt: HostRuntime) -> Result<(), Fail> {
    for (of, want) in SUM_CASES {
        assert!(rt;
            is_over_groups(rt.alloc(), of, &[], &[Item::Sum(NUMBER)], want)?,
            "{want}"
        );
    }
    Ok(())
}

// Texts with the least and the greatest of them.
const TEXT_CASES: [(&[(i64, &str)], &str); 4] = [
    (
        &[(0, "z"), (0, "\u{e9}"), (0, "a"), (0, "Z")],
        "'Z'|'\u{e9}'",
    ),
    (&[(0, "ab"), (0, "b"), (0, "a"), (0, "aa")], "'a'|'b'"),
    (
        &[(0, "\u{20ac}"), (0, "\u{1f600}"), (0, "\u{ffff}"), (0, "~")],
        "'~'|'\u{1f600}'",
    ),
    (&[(0, "x"), (0, ""), (0, "x"), (0, "")], "''|'x'"),
];

#[test]
fn compares_texts_by_bytes(rt: HostRuntime) -> Result<(), Fail> {
    let items = [Item::Least(TEXT), Item::Greatest(TEXT)];
    for (of, want) in TEXT_CASES {
        assert!(rt;
            is_over_groups(rt.alloc(), of, &[], items.as_slice(), want)?,
            "{want}"
        );
    }
    Ok(())
}

const ROWS: [(i64, &str); 6] = [(1, "b"), (2, "a"), (-3, "b"), (4, "c"), (5, "a"), (1, "b")];

const ITEMS: [Item; 6] = [
    Item::Col(TEXT),
    Item::Count,
    Item::CountOf(TEXT),
    Item::Sum(NUMBER),
    Item::Least(NUMBER),
    Item::Greatest(NUMBER),
];

// Group columns, and the answer.
const GROUP_CASES: [(&[ColRef], &str); 3] = [
    (&[TEXT], "'b'|3|3|-1|-3|1\n'a'|2|2|7|2|5\n'c'|1|1|4|4|4"),
    (
        &[NUMBER, TEXT],
        "'b'|2|2|2|1|1\n'a'|1|1|2|2|2\n'b'|1|1|-3|-3|-3\n'c'|1|1|4|4|4\n'a'|1|1|5|5|5",
    ),
    (&[], "'b'|6|6|10|-3|5"),
];

#[test]
fn groups_in_order_of_first_standing(rt: HostRuntime) -> Result<(), Fail> {
    for (groups, want) in GROUP_CASES {
        assert!(rt;
            is_over_groups(rt.alloc(), ROWS.as_slice(), groups, ITEMS.as_slice(), want)?,
            "{want}"
        );
    }
    Ok(())
}

#[test]
fn groups_no_row(rt: HostRuntime) -> Result<(), Fail> {
    let items = [Item::Count, Item::CountOf(NUMBER)];
    assert!(rt; is_over_groups(rt.alloc(), &[], &[], items.as_slice(), "0|0")?);
    assert!(rt; is_over_groups(rt.alloc(), &[], &[TEXT], items.as_slice(), "no row")?);
    Ok(())
}

const ITEMS_OF_ONE: [Item; 6] = [
    Item::Count,
    Item::CountOf(TEXT),
    Item::Col(NUMBER),
    Item::Sum(NUMBER),
    Item::Least(NUMBER),
    Item::Greatest(NUMBER),
];

// Without groups each row is a group of one.
#[test]
fn takes_items_of_one(rt: HostRuntime) -> Result<(), Fail> {
    let tables = table(rt.alloc(), &[(i64::MIN, "a")])?;
    let query = query(rt.alloc(), ITEMS_OF_ONE.as_slice())?;
    let want =
        "1|1|-9223372036854775808|-9223372036854775808|-9223372036854775808|-9223372036854775808";
    assert!(rt; is_answer(rt.alloc(), &query, &tables, want)?);
    Ok(())
}
