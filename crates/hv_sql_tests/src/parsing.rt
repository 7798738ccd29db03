// Texts with the place of their fault, if they have one.
use hv_sql::{SqlFault, parse};
use std::alloc::{AllocError, Global};
use std::test::Fail;

// `SELECT a FROM t WHERE`, and a test of `a` within this many parentheses.
fn nested(alloc: Global, depth: u32) -> Result<Vec<u8>, AllocError> {
    let mut text = Vec::new(alloc);
    text.extend_from_slice(b"SELECT a FROM t WHERE ")?;
    for _ in 0..depth {
        text.push(b'(')?;
    }
    text.extend_from_slice(b"a=a")?;
    for _ in 0..depth {
        text.push(b')')?;
    }
    Ok(text)
}

fn fault(alloc: Global, text: &[u8]) -> Option<u32> {
    if text.len() > 67108864 {
        return Some(u32::MAX);
    }
    match parse(alloc, text) {
        Ok(_) => None,
        Err(SqlFault::Syntax { byte }) => Some(byte),
        Err(SqlFault::Memory) => Some(u32::MAX),
    }
}

const FAULTS: [(&[u8], Option<u32>); 12] = [
    (b"", Some(0)),
    (b"   ", Some(3)),
    (b" BARRIER ", None),
    (b" BARRIER BARRIER", Some(9)),
    (b"session a_b", None),
    (b"session", Some(7)),
    (b"session select", Some(8)),
    (b"CREATE TABLE t (a INT INDEX RANGE, b TEXT)", None),
    (b"CREATE TABLE t (a INT RANGE INDEX, b TEXT)", Some(28)),
    (
        b"SELECT a FROM t WHERE a = 'it''s' AND NOT b <> -9223372036854775808 LIMIT 3",
        Some(68),
    ),
    (
        b"SELECT t.a, COUNT(*) FROM t u WHERE 1 <= a GROUP BY a ORDER BY 2 DESC LIMIT 3",
        None,
    ),
    (b"SELECT a FROM t WHERE a = 'b", Some(26)),
];

#[test]
fn statements_and_faults(rt: HostRuntime) {
    for (at, (text, told)) in FAULTS.into_iter().enumerate() {
        assert!(rt; fault(rt.alloc(), text) == told, "text {at}");
    }
}

#[test]
fn nests_64_parentheses(rt: HostRuntime) -> Result<(), Fail> {
    for (depth, told) in [(64, None), (65, Some(86))] {
        let text = nested(rt.alloc(), depth)?;
        assert!(rt; fault(rt.alloc(), text.as_slice()) == told, "{depth}");
    }
    Ok(())
}
