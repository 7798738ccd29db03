// The bytes of each kind of reply.
use crate::reports::{WHOLE, bytes_of, created, imported, purged, report, report_on, row, whole};
use hv_model::{Detail, Failure, OutRow, OutRows, Refusal, Replies, Reply, Why};
use hv_report::report_law;
use std::alloc::{AllocError, Global};
use std::test::Fail;

// Whether the report on one statement has this line, from its number on.
fn is_line(alloc: Global, reply: Reply, line: &str) -> Result<bool, AllocError> {
    let told = report_on(alloc, reply)?;
    let want = format!(in alloc; "session main\n1 {line}\nhistory 0\n")?;
    Ok(bytes_of(alloc, &told).as_slice() == want.as_bytes())
}

const REFUSALS: [(Refusal, &str); 20] = [
    (Refusal::Unbuilt, "refused @7 unbuilt"),
    (Refusal::Syntax { byte: 0 }, "refused @7 syntax 0"),
    (Refusal::TooManyColumns, "refused @7 too-many-columns"),
    (
        Refusal::DuplicateColumn { column: 255 },
        "refused @7 duplicate-column 255",
    ),
    (Refusal::TableExists, "refused @7 table-exists"),
    (Refusal::TooManyTables, "refused @7 too-many-tables"),
    (Refusal::NoTable { byte: 9 }, "refused @7 no-table 9"),
    (
        Refusal::BadRow {
            row: 1_000_001,
            column: 0,
        },
        "refused @7 bad-row 1000001 0",
    ),
    (Refusal::LongRow { row: 2 }, "refused @7 long-row 2"),
    (Refusal::TooManyChunks, "refused @7 too-many-chunks"),
    (
        Refusal::NoChunk {
            chunk: 18_446_744_073_709_551_615,
        },
        "refused @7 no-chunk 18446744073709551615",
    ),
    (Refusal::HistoryFull, "refused @7 history-full"),
    (
        Refusal::TooManyPlaces { byte: 10 },
        "refused @7 too-many-places 10",
    ),
    (
        Refusal::DuplicateAlias { byte: 11 },
        "refused @7 duplicate-alias 11",
    ),
    (Refusal::NoColumn { byte: 12 }, "refused @7 no-column 12"),
    (Refusal::Ambiguous { byte: 13 }, "refused @7 ambiguous 13"),
    (
        Refusal::TypeMismatch { byte: 14 },
        "refused @7 type-mismatch 14",
    ),
    (
        Refusal::NotGrouped { byte: 15 },
        "refused @7 not-grouped 15",
    ),
    (
        Refusal::NoOutput {
            byte: 4_294_967_295,
        },
        "refused @7 no-output 4294967295",
    ),
    (Refusal::EmptyAggregate, "refused @7 empty-aggregate"),
];

#[test]
fn refusals_are_told(rt: HostRuntime) -> Result<(), Fail> {
    for (cause, line) in REFUSALS {
        assert!(rt;
            is_line(rt.alloc(), Reply::Refused { at: 7, cause }, line)?,
            "{line}"
        );
    }
    Ok(())
}

const DAMAGED_1: Failure = Failure::Damaged {
    chunk: 3,
    page: 4,
    why: Why::Form { byte: 1 },
};

const DAMAGED_2: Failure = Failure::Damaged {
    chunk: 3,
    page: 4,
    why: Why::Form { byte: 2 },
};

const FAILURES: [(Failure, &str); 5] = [
    (Failure::Read, "failed @0 read"),
    (Failure::Write, "failed @0 write"),
    (DAMAGED_1, "failed @0 damaged 3 4"),
    (DAMAGED_2, "failed @0 damaged 3 4"),
    (Failure::Memory, "failed @0 memory"),
];

#[test]
fn failures_are_told_without_why(rt: HostRuntime) -> Result<(), Fail> {
    for (cause, line) in FAILURES {
        assert!(rt;
            is_line(rt.alloc(), Reply::Failed { at: 0, cause }, line)?,
            "{line}"
        );
    }
    Ok(())
}

// The reply to the last command that a history can have.
fn done(what: Detail) -> Reply {
    Reply::Done {
        at: 4_294_967_295,
        what,
    }
}

#[test]
fn commands_are_told(rt: HostRuntime) -> Result<(), Fail> {
    let create = done(created(rt.alloc())?);
    let import = done(imported(rt.alloc())?);
    assert!(rt; is_line(rt.alloc(), create, "ok @4294967295 create t")?);
    assert!(rt;
        is_line(
            rt.alloc(),
            import,
            "ok @4294967295 import t chunk 1 rows 4294967295"
        )?
    );
    let purge = done(purged(rt.alloc())?);
    assert!(rt; is_line(rt.alloc(), purge, "ok @4294967295 purge t chunk 4294967295")?);
    Ok(())
}

const ROWS: [(i128, &[u8]); 4] = [
    (-7, b""),
    (i128::MIN, b"it's"),
    (i128::MAX, b"''"),
    (0, b"a|b\n'"),
];

const ROWS_LINES: &[u8] = b"session main\n\
    1 rows @2 5\n\
    -7|''\n\
    -170141183460469231731687303715884105728|'it''s'\n\
    170141183460469231731687303715884105727|''''''\n\
    0|'a|b\n\
    '''\n\
    \n\
    history 0\n";

// These rows, and a row without cells.
fn rows(alloc: Global) -> Result<OutRows, AllocError> {
    let mut rows = OutRows::new(alloc);
    for (number, text) in ROWS {
        rows.push(row(alloc, number, text)?)?;
    }
    rows.push(OutRow::new(alloc))?;
    Ok(rows)
}

#[test]
fn rows_are_told(rt: HostRuntime) -> Result<(), Fail> {
    let rows = rows(rt.alloc())?;
    let told = report_on(rt.alloc(), Reply::Rows { at: 2, rows })?;
    assert!(rt; bytes_of(rt.alloc(), &told).as_slice() == ROWS_LINES);
    Ok(())
}

#[test]
fn a_whole_report_is_told(rt: HostRuntime) -> Result<(), Fail> {
    let told = whole(rt.alloc())?;
    assert!(rt; bytes_of(rt.alloc(), &told).as_slice() == WHOLE.as_bytes());
    Ok(())
}

#[test]
fn nothing_is_told_of_a_session_without_replies(rt: HostRuntime) -> Result<(), Fail> {
    let told = report(rt.alloc(), Replies::new(rt.alloc()))?;
    assert!(rt; bytes_of(rt.alloc(), &told).as_slice() == b"history 0\n".as_slice());
    Ok(())
}

#[test]
fn reports_are_told_by_their_bytes() {
    report_law();
}
