// What texts are, and how cases are met.
use crate::printer::{Detail, tree_line};
use hv_sql::{SqlFault, parse};
use std::alloc::Global;
use std::process::Abort;
use std::test::Fail;

// What a text is: its tree in one line, or the byte of its fault.
pub fn line_of(alloc: Global, detail: Detail, text: &[u8]) -> Result<String, Fail> {
    if text.len() > 67_108_864 {
        return Err(Fail::from("too long"));
    }
    match parse(alloc, text) {
        Ok(tree) => tree_line(alloc, detail, &tree),
        Err(SqlFault::Syntax { byte }) => Ok(format!(in alloc; "fault {byte}")?),
        Err(SqlFault::Memory) => Err(Fail::from("no memory")),
    }
}

// Whether a text is this, by its tree's shape or its fault.
pub fn is_line(alloc: Global, text: &[u8], want: &str) -> Result<bool, Fail> {
    Ok(line_of(alloc, Detail::Shape, text)?.as_str() == want)
}

// A text with N times the piece for each `{N:piece}`.
fn spread(alloc: Global, text: &str) -> Result<String, Fail> {
    let mut all = String::new(alloc);
    for part in text.split("{") {
        match part.split_once("}") {
            Some((times, rest)) => {
                push_times(&mut all, times)?;
                all.push_str(rest)?;
            }
            None => all.push_str(part)?,
        }
    }
    Ok(all)
}

// `N:piece` as N times the piece.
fn push_times(all: &mut String, times: &str) -> Result<(), Fail> {
    let (times, piece) = times.split_once(":").ok_or("a piece without its number")?;
    let times: u32 = times.parse().ok().ok_or("a piece without its number")?;
    for _ in 0..times {
        all.push_str(piece)?;
    }
    Ok(())
}

// Whether a case, a statement, ` => ` and what it is, holds.
fn is_met(alloc: Global, detail: Detail, case: &str) -> Result<bool, Fail> {
    let (text, want) = case.split_once(" => ").ok_or("a case without =>")?;
    let text = spread(alloc, text)?;
    let want = spread(alloc, want)?;
    Ok(line_of(alloc, detail, text.as_bytes())? == want)
}

// Meets the case of each line.
pub fn meet(rt: &impl Abort, alloc: Global, detail: Detail, cases: &str) -> Result<(), Fail> {
    for case in cases.split("\n") {
        assert!(rt; is_met(alloc, detail, case)?, "{case}");
    }
    Ok(())
}
