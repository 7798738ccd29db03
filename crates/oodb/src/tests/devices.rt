// Runs over devices that fail or rot, and over files in a folder.
use super::{FIRST, ORDERED, REPORT, Taken, meets, ran, source_of};
use crate::device_in;
use crate::status::Status;
use Part::{Numbers, Text};
use Status::{Fine, SomeFailed};
use hv_dev::FailKind::{Read, Seal, Write};
use hv_dev::{Device, Fail as FailedCall, FailKind, MemDevice, Rotten};
use hv_io::MemSink;
use std::alloc::{AllocError, Global};
use std::fs;
use std::process::Abort;
use std::test::Fail;

// A part of a script or of a report: a text, or a line for each number from one to another.
#[derive(Clone, Copy)]
enum Part {
    Text(&'static str),
    Numbers(u32, u32),
}

// All parts, one after another.
fn joined(alloc: Global, parts: &[Part]) -> Result<Vec<u8>, Fail> {
    let mut bytes = Vec::new(alloc);
    for part in parts {
        match *part {
            Text(text) => bytes.extend_from_slice(text.as_bytes())?,
            Numbers(from, to) => put_numbers(&mut bytes, alloc, from, to)?,
        }
    }
    Ok(bytes)
}

fn put_numbers(bytes: &mut Vec<u8>, alloc: Global, from: u32, to: u32) -> Result<(), Fail> {
    for number in from..=to {
        let line = format!(in alloc; "{number}\n")?;
        bytes.extend_from_slice(line.as_bytes())?;
    }
    Ok(())
}

// Runs a script over a device; its source and its sink are in memory and don't fail.
fn ran_over<D: Device>(alloc: Global, device: &mut D, script: &[u8]) -> Result<Taken, AllocError> {
    let source = source_of(alloc, script, 1000, None)?;
    ran(alloc, source, MemSink::new(alloc, 4096, None), device)
}

// A run of a script over a device ends so and writes the report.
fn compare<D: Device>(
    rt: &impl Abort,
    alloc: Global,
    device: &mut D,
    script: &[Part],
    status: Status,
    report: &[Part],
) -> Result<(), Fail> {
    let script = joined(alloc, script)?;
    let report = joined(alloc, report)?;
    let got = ran_over(alloc, device, script.as_slice())?;
    meets(rt, &got, status, report.as_slice());
    Ok(())
}

// A device that fails at one call of its first port.
fn failing(alloc: Global, kind: FailKind, nth: u32) -> Result<MemDevice, AllocError> {
    let mut fails = Vec::new(alloc);
    fails.push(FailedCall { port: 0, kind, nth })?;
    Ok(MemDevice::new(fails))
}

#[test]
fn calls_that_fail_are_told_for_their_statement_alone(rt: HostRuntime) -> Result<(), Fail> {
    for (kind, nth, script, report) in ALONE {
        let mut device = failing(rt.alloc(), kind, nth)?;
        let got = ran_over(rt.alloc(), &mut device, script.as_bytes())?;
        meets(&rt, &got, SomeFailed, report.as_bytes());
    }
    Ok(())
}

// A call that fails, the script, and the report.
const ALONE: [(FailKind, u32, &str, &str); 6] = [
    (Read, 1, FIRST, UNREAD),
    (Read, 1, TWICE, UNREAD_ONCE),
    (Write, 1, FIRST, UNWRITTEN),
    (Seal, 1, FIRST, UNWRITTEN),
    (Write, 1, ORDERED, UNWRITTEN),
    (Seal, 1, ORDERED, UNWRITTEN),
];

#[test]
fn each_call_that_fails_is_told_as_the_definitions_have_it(rt: HostRuntime) -> Result<(), Fail> {
    for (kind, nth, script, status, report) in EACH_CALL {
        let mut device = failing(rt.alloc(), kind, nth)?;
        compare(&rt, rt.alloc(), &mut device, script, status, report)?;
    }
    Ok(())
}

// A call that fails, the script, the status of the run, and the report. A page holds 408 of these rows, so that 500 take two writes and
// a seal, and a SELECT reads each page that is there.
const EACH_CALL: [(FailKind, u32, &[Part], Status, &[Part]); 16] = [
    (Read, 1, TWO_IMPORTS, SomeFailed, FIRST_UNREAD),
    (Read, 2, TWO_IMPORTS, SomeFailed, FIRST_UNREAD),
    (Read, 3, TWO_IMPORTS, SomeFailed, SECOND_UNREAD),
    (Read, 4, TWO_IMPORTS, SomeFailed, SECOND_UNREAD),
    (Read, 5, TWO_IMPORTS, SomeFailed, SECOND_UNREAD),
    (Read, 6, TWO_IMPORTS, SomeFailed, SECOND_UNREAD),
    (Read, 7, TWO_IMPORTS, Fine, ANSWERED),
    (Write, 1, TWO_IMPORTS, SomeFailed, FIRST_UNWRITTEN),
    (Write, 2, TWO_IMPORTS, SomeFailed, FIRST_UNWRITTEN),
    (Write, 3, TWO_IMPORTS, SomeFailed, SECOND_UNWRITTEN),
    (Write, 4, TWO_IMPORTS, SomeFailed, SECOND_UNWRITTEN),
    (Write, 5, TWO_IMPORTS, Fine, ANSWERED),
    (Seal, 1, TWO_IMPORTS, SomeFailed, FIRST_UNWRITTEN),
    (Seal, 2, TWO_IMPORTS, SomeFailed, SECOND_UNWRITTEN),
    (Seal, 3, TWO_IMPORTS, Fine, ANSWERED),
    (Write, 3, MADE_AGAIN, SomeFailed, MADE_AGAIN_REPORT),
];

// The first script with one SELECT more.
const TWICE: &str =
    "CREATE TABLE t (a INT, b TEXT);\nIMPORT INTO t LINES 1;\n1,a\nSELECT * FROM t;\nSELECT * FROM t;\n";

const UNREAD: &str =
    "session main\n1 ok @1 create t\n2 ok @2 import t chunk 1 rows 1\n3 failed @2 read\nhistory 2\n1 main 1 create t\n2 main 2 import t chunk 1 rows 1\n";

const UNREAD_ONCE: &str =
    "session main\n1 ok @1 create t\n2 ok @2 import t chunk 1 rows 1\n3 failed @2 read\n4 rows @2 1\n1|'a'\nhistory 2\n1 main 1 create t\n2 main 2 import t chunk 1 rows 1\n";

const UNWRITTEN: &str =
    "session main\n1 ok @1 create t\n2 failed @1 write\n3 rows @1 0\nhistory 1\n1 main 1 create t\n";

// An import of three pages, which is made twice.
const MADE_AGAIN: &[Part] = &[
    Text("CREATE TABLE t (a INT);\nIMPORT INTO t LINES 1000;\n"),
    Numbers(1, 1000),
    Text("SELECT * FROM t;\nIMPORT INTO t LINES 1000;\n"),
    Numbers(1, 1000),
    Text("SELECT * FROM t;\n"),
];

const MADE_AGAIN_REPORT: &[Part] = &[
    Text(
        "session main\n1 ok @1 create t\n2 failed @1 write\n3 rows @1 0\n4 ok @2 import t chunk 1 rows 1000\n5 rows @2 1000\n",
    ),
    Numbers(1, 1000),
    Text("history 2\n1 main 1 create t\n2 main 4 import t chunk 1 rows 1000\n"),
];

const TWO_IMPORTS: &[Part] = &[
    Text("CREATE TABLE t (a INT);\nIMPORT INTO t LINES 500;\n"),
    Numbers(1, 500),
    Text("SELECT * FROM t;\nIMPORT INTO t LINES 500;\n"),
    Numbers(501, 1000),
    Text("SELECT * FROM t;\n"),
];

const ANSWERED: &[Part] = &[
    Text("session main\n1 ok @1 create t\n2 ok @2 import t chunk 1 rows 500\n3 rows @2 500\n"),
    Numbers(1, 500),
    Text("4 ok @3 import t chunk 2 rows 500\n5 rows @3 1000\n"),
    Numbers(1, 1000),
    Text(BOTH_MADE),
];

const BOTH_MADE: &str =
    "history 3\n1 main 1 create t\n2 main 2 import t chunk 1 rows 500\n3 main 4 import t chunk 2 rows 500\n";

const FIRST_UNREAD: &[Part] = &[
    Text(
        "session main\n1 ok @1 create t\n2 ok @2 import t chunk 1 rows 500\n3 failed @2 read\n4 ok @3 import t chunk 2 rows 500\n5 rows @3 1000\n",
    ),
    Numbers(1, 1000),
    Text(BOTH_MADE),
];

const SECOND_UNREAD: &[Part] = &[
    Text("session main\n1 ok @1 create t\n2 ok @2 import t chunk 1 rows 500\n3 rows @2 500\n"),
    Numbers(1, 500),
    Text("4 ok @3 import t chunk 2 rows 500\n5 failed @3 read\n"),
    Text(BOTH_MADE),
];

const FIRST_UNWRITTEN: &[Part] = &[
    Text(
        "session main\n1 ok @1 create t\n2 failed @1 write\n3 rows @1 0\n4 ok @2 import t chunk 1 rows 500\n5 rows @2 500\n",
    ),
    Numbers(501, 1000),
    Text("history 2\n1 main 1 create t\n2 main 4 import t chunk 1 rows 500\n"),
];

const SECOND_UNWRITTEN: &[Part] = &[
    Text("session main\n1 ok @1 create t\n2 ok @2 import t chunk 1 rows 500\n3 rows @2 500\n"),
    Numbers(1, 500),
    Text("4 failed @2 write\n5 rows @2 500\n"),
    Numbers(1, 500),
    Text("history 2\n1 main 1 create t\n2 main 2 import t chunk 1 rows 500\n"),
];

#[test]
fn a_read_of_one_port_fails_its_session_alone(rt: HostRuntime) -> Result<(), Fail> {
    let mut fails = Vec::new(rt.alloc());
    fails.push(FailedCall {
        port: 1,
        kind: Read,
        nth: 2,
    })?;
    let mut device = MemDevice::new(fails);
    compare(
        &rt,
        rt.alloc(),
        &mut device,
        TWO_READERS,
        SomeFailed,
        &[Text(ONE_UNREAD)],
    )
}

// Two sessions read three pages each; the one that is named first has port 1.
const TWO_READERS: &[Part] = &[
    Text("CREATE TABLE t (a INT);\nIMPORT INTO t LINES 817;\n"),
    Numbers(1, 817),
    Text("BARRIER;\nSESSION b;\nSELECT COUNT(*) FROM t;\nSESSION a;\nSELECT COUNT(*) FROM t;\n"),
];

const ONE_UNREAD: &str =
    "session main\n1 ok @1 create t\n2 ok @2 import t chunk 1 rows 817\nsession b\n1 failed @2 read\nsession a\n1 rows @2 1\n817\nhistory 2\n1 main 1 create t\n2 main 2 import t chunk 1 rows 817\n";

// A table of two rows, one of one row and one without a row.
const TABLES: &str =
    "CREATE TABLE t (a INT);\nCREATE TABLE u (b INT);\nCREATE TABLE e (c INT);\nIMPORT INTO t LINES 2;\n1\n2\nIMPORT INTO u LINES 1;\n3\nIMPORT INTO e LINES 0;\n";

const TABLES_MADE: &str =
    "session main\n1 ok @1 create t\n2 ok @2 create u\n3 ok @3 create e\n4 ok @4 import t chunk 1 rows 2\n5 ok @5 import u chunk 2 rows 1\n6 ok @6 import e chunk 3 rows 0\n";

const TABLES_HISTORY: &str =
    "history 6\n1 main 1 create t\n2 main 2 create u\n3 main 3 create e\n4 main 4 import t chunk 1 rows 2\n5 main 5 import u chunk 2 rows 1\n6 main 6 import e chunk 3 rows 0\n";

// A query over two of them, twice.
const JOINED: &str = "SELECT a, b FROM t, u ORDER BY a;\nSELECT a, b FROM t, u ORDER BY a;\n";

// The read of the first query that fails, two queries, and their replies.
const QUERIES: [(u32, &str, &str); 6] = [
    (1, JOINED, "7 failed @6 read\n8 rows @6 2\n1|3\n2|3\n"),
    (2, JOINED, "7 failed @6 read\n8 rows @6 2\n1|3\n2|3\n"),
    (
        1,
        "SELECT b FROM e, u;\nSELECT b FROM e, u;\n",
        "7 failed @6 read\n8 rows @6 0\n",
    ),
    (
        1,
        "SELECT SUM(a) FROM t WHERE a > 2;\nSELECT SUM(a) FROM t WHERE a > 2;\n",
        "7 failed @6 read\n8 refused @6 empty-aggregate\n",
    ),
    (
        1,
        "SELECT SUM(c) FROM e;\nSELECT SUM(a) FROM t;\n",
        "7 refused @6 empty-aggregate\n8 failed @6 read\n",
    ),
    (
        1,
        "SELECT b FROM t;\nSELECT a FROM t ORDER BY a LIMIT 0;\n",
        "7 refused @6 no-column 7\n8 failed @6 read\n",
    ),
];

#[test]
fn a_query_one_of_whose_reads_fails_is_failed(rt: HostRuntime) -> Result<(), Fail> {
    for (nth, queries, replies) in QUERIES {
        let script = [Text(TABLES), Text(queries)];
        let report = [Text(TABLES_MADE), Text(replies), Text(TABLES_HISTORY)];
        let mut device = failing(rt.alloc(), Read, nth)?;
        compare(&rt, rt.alloc(), &mut device, &script, SomeFailed, &report)?;
    }
    Ok(())
}

#[test]
fn a_page_that_rots_is_told_for_its_statement_alone(rt: HostRuntime) -> Result<(), Fail> {
    let got = ran_over(rt.alloc(), &mut Rotten::new(0, 1, 20), FIRST.as_bytes())?;
    meets(&rt, &got, SomeFailed, ROTTEN.as_bytes());
    let got = ran_over(rt.alloc(), &mut Rotten::new(0, 1, 4095), TWICE.as_bytes())?;
    meets(&rt, &got, SomeFailed, ROTTEN_ONCE.as_bytes());
    Ok(())
}

#[test]
fn a_second_page_that_rots_is_told_by_its_number(rt: HostRuntime) -> Result<(), Fail> {
    let mut device = Rotten::new(0, 2, 20);
    compare(
        &rt,
        rt.alloc(),
        &mut device,
        TWO_PAGES,
        SomeFailed,
        &[Text(SECOND_ROTTEN)],
    )
}

const ROTTEN: &str =
    "session main\n1 ok @1 create t\n2 ok @2 import t chunk 1 rows 1\n3 failed @2 damaged 1 0\nhistory 2\n1 main 1 create t\n2 main 2 import t chunk 1 rows 1\n";

const ROTTEN_ONCE: &str =
    "session main\n1 ok @1 create t\n2 ok @2 import t chunk 1 rows 1\n3 failed @2 damaged 1 0\n4 rows @2 1\n1|'a'\nhistory 2\n1 main 1 create t\n2 main 2 import t chunk 1 rows 1\n";

const TWO_PAGES: &[Part] = &[
    Text("CREATE TABLE t (a INT);\nIMPORT INTO t LINES 409;\n"),
    Numbers(1, 409),
    Text("SELECT COUNT(*) FROM t;\nSELECT COUNT(*) FROM t;\n"),
];

const SECOND_ROTTEN: &str =
    "session main\n1 ok @1 create t\n2 ok @2 import t chunk 1 rows 409\n3 failed @2 damaged 1 1\n4 rows @2 1\n409\nhistory 2\n1 main 1 create t\n2 main 2 import t chunk 1 rows 409\n";

// Runs a script over files in a folder.
fn ran_in(rt: HostRuntime, folder: &str, script: &str) -> Result<Taken, AllocError> {
    let mut device = device_in(rt, folder.as_bytes())?;
    ran_over(rt.alloc(), &mut device, script.as_bytes())
}

#[test]
fn files_in_a_folder_are_written_over_by_the_next_run(rt: HostRuntime) -> Result<(), Fail> {
    let folder = "oodb_run_test";
    let _ = fs::remove_dir_all(&rt, folder);
    for (script, report) in [(TWICE, REPORT_TWICE), (FIRST, REPORT)] {
        let got = ran_in(rt, folder, script)?;
        meets(&rt, &got, Fine, report.as_bytes());
    }
    fs::remove_dir_all(&rt, folder)?;
    Ok(())
}

const REPORT_TWICE: &str =
    "session main\n1 ok @1 create t\n2 ok @2 import t chunk 1 rows 1\n3 rows @2 1\n1|'a'\n4 rows @2 1\n1|'a'\nhistory 2\n1 main 1 create t\n2 main 2 import t chunk 1 rows 1\n";

#[test]
fn a_folder_that_cannot_be_made_fails_the_import(rt: HostRuntime) -> Result<(), Fail> {
    let plain = "oodb_plain_test";
    fs::write(&rt, plain, b"".as_slice())?;
    let got = ran_in(rt, "oodb_plain_test/pages", FIRST)?;
    fs::remove_file(&rt, plain)?;
    meets(&rt, &got, SomeFailed, UNWRITTEN.as_bytes());
    Ok(())
}
