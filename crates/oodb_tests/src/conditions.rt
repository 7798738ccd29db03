// Conditions and whether they are true of a combination; the expected values are reasoned.
use crate::asked::rows;
use hv_expr::holds;
use hv_model::{Cmp, ColRef, Cond, Operand};
use hv_row::{Rows, Value};
use sqlite_items::{Boxed, Items};
use std::alloc::Global;
use std::test::Fail;

fn column(place: u8, column: u8) -> Operand {
    Operand::Col(ColRef { place, column })
}

fn number(number: i64) -> Operand {
    Operand::Lit(Value::Int(number))
}

// Whether a comparison is true of a combination.
fn passes(rows: &Rows, left: Operand, how: Cmp, right: Operand) -> bool {
    holds(&Cond::Test(left, how, right), rows.as_slice())
}

// Whether a comparison is true of 2, 3 and 4 on its left and 3 on its right.
fn passed(rows: &Rows, how: Cmp) -> [bool; 3] {
    [
        passes(rows, number(2), how, number(3)),
        passes(rows, number(3), how, number(3)),
        passes(rows, number(4), how, number(3)),
    ]
}

const NUMBER_CASES: [(Cmp, [bool; 3]); 6] = [
    (Cmp::Eq, [false, true, false]),
    (Cmp::Ne, [true, false, true]),
    (Cmp::Lt, [true, false, false]),
    (Cmp::Le, [true, true, false]),
    (Cmp::Gt, [false, false, true]),
    (Cmp::Ge, [false, true, true]),
];

#[test]
fn compares_numbers(rt: HostRuntime) {
    let rows = Rows::new(rt.alloc());
    for (how, want) in NUMBER_CASES {
        assert!(rt; passed(&rows, how) == want, "{how:?}");
    }
}

// Comparisons of columns, each a place and a number, over the rows (2, 'b') and (3, 'a').
const COLUMN_CASES: [((u8, u8), Cmp, (u8, u8), bool); 5] = [
    ((0, 0), Cmp::Lt, (1, 0), true),
    ((0, 1), Cmp::Gt, (1, 1), true),
    // A number stands before each text, and a column that is not there has no value.
    ((0, 0), Cmp::Lt, (1, 1), true),
    ((2, 0), Cmp::Eq, (2, 0), false),
    ((0, 2), Cmp::Ne, (0, 0), false),
];

#[test]
fn compares_columns(rt: HostRuntime) -> Result<(), Fail> {
    let rows = rows(rt.alloc(), &[(2, "b"), (3, "a")])?;
    for (left, how, right, want) in COLUMN_CASES {
        let (left, right) = (column(left.0, left.1), column(right.0, right.1));
        assert!(rt; passes(&rows, left, how, right) == want, "{how:?}");
    }
    Ok(())
}

// Members that are true or not.
fn members(alloc: Global, of: &[bool]) -> Result<Items<Cond>, Fail> {
    let mut members = Items::new(alloc);
    for wanted in of {
        members.push(Cond::Test(number(i64::from(*wanted)), Cmp::Eq, number(1)))?;
    }
    Ok(members)
}

// Whether a condition is true of no row.
fn is_true(alloc: Global, cond: &Cond) -> bool {
    let rows = Rows::new(alloc);
    holds(cond, rows.as_slice())
}

fn is_all(alloc: Global, of: &[bool]) -> Result<bool, Fail> {
    Ok(is_true(alloc, &Cond::All(members(alloc, of)?)))
}

fn is_any(alloc: Global, of: &[bool]) -> Result<bool, Fail> {
    Ok(is_true(alloc, &Cond::Any(members(alloc, of)?)))
}

#[test]
fn joins_conditions(rt: HostRuntime) -> Result<(), Fail> {
    for (of, all, any) in [
        ([false, false], false, false),
        ([false, true], false, true),
        ([true, false], false, true),
        ([true, true], true, true),
    ] {
        assert!(rt; is_all(rt.alloc(), of.as_slice())? == all, "{of:?}");
        assert!(rt; is_any(rt.alloc(), of.as_slice())? == any, "{of:?}");
    }
    Ok(())
}

#[test]
fn joins_no_condition(rt: HostRuntime) -> Result<(), Fail> {
    assert!(rt; is_all(rt.alloc(), &[])?);
    assert!(rt; !is_any(rt.alloc(), &[])?);
    Ok(())
}

#[test]
fn turns_conditions(rt: HostRuntime) -> Result<(), Fail> {
    let none = Cond::Any(Items::new(rt.alloc()));
    let turned = Cond::Not(Boxed::new(rt.alloc(), none)?);
    assert!(rt; is_true(rt.alloc(), &turned));
    assert!(rt; is_true(rt.alloc(), &Cond::Always));
    Ok(())
}
