// Statements with their trees or the bytes of their faults, which follow from the rules of the language; none is the program's own answer.
use crate::cases::{
    BYTE_CASES, CHUNK_CASES, COMPARISON_CASES, CONDITION_CASES, COUNT_CASES, DEPTH_CASES,
    GROUP_CASES, ITEM_CASES, NAME_CASES, ORDER_CASES, PLACE_CASES, SESSION_CASES, TABLE_CASES,
    VALUE_CASES,
};
use crate::printer::Detail;
use crate::reading::meet;
use std::test::Fail;

// All but conditions.
const STATEMENT_CASES: [&str; 8] = [
    TABLE_CASES,
    CHUNK_CASES,
    SESSION_CASES,
    NAME_CASES,
    ITEM_CASES,
    PLACE_CASES,
    GROUP_CASES,
    ORDER_CASES,
];

#[test]
fn statements_are_trees_or_have_their_fault(rt: HostRuntime) -> Result<(), Fail> {
    for cases in STATEMENT_CASES {
        meet(&rt, rt.alloc(), Detail::Shape, cases)?;
    }
    Ok(())
}

#[test]
fn conditions_are_trees_or_have_their_fault(rt: HostRuntime) -> Result<(), Fail> {
    for cases in [COMPARISON_CASES, VALUE_CASES, CONDITION_CASES] {
        meet(&rt, rt.alloc(), Detail::Shape, cases)?;
    }
    Ok(())
}

#[test]
fn the_token_past_a_limit_is_the_fault(rt: HostRuntime) -> Result<(), Fail> {
    for cases in [COUNT_CASES, DEPTH_CASES] {
        meet(&rt, rt.alloc(), Detail::Shape, cases)?;
    }
    Ok(())
}

#[test]
fn trees_have_their_bytes(rt: HostRuntime) -> Result<(), Fail> {
    meet(&rt, rt.alloc(), Detail::Bytes, BYTE_CASES)
}
