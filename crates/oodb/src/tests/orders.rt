// Sessions that take their steps by each order.
use super::{Taken, meets, ran_by, source_of};
use crate::status::Status;
use hv_dev::CleanDevice;
use hv_io::MemSink;
use hv_row::Bytes;
use std::alloc::{AllocError, Global};
use std::test::Fail;

// Runs a script by an order.
fn ran_in_order(alloc: Global, order: &str, script: &str) -> Result<Taken, AllocError> {
    let words = [
        Bytes::from_slice(alloc, b"run")?,
        Bytes::from_slice(alloc, order.as_bytes())?,
    ];
    let source = source_of(alloc, script.as_bytes(), 1000, None)?;
    let out = MemSink::new(alloc, 4096, None);
    Ok(ran_by(alloc, &words, source, out, &mut CleanDevice::new()))
}

#[test]
fn sessions_take_their_steps_by_each_order(rt: HostRuntime) -> Result<(), Fail> {
    for (order, script, report) in ORDERS {
        let got = ran_in_order(rt.alloc(), order, script)?;
        meets(&rt, &got, Status::Fine, report.as_bytes());
    }
    Ok(())
}

// An order, a script, and its report.
const ORDERS: [(&str, &str, &str); 5] = [
    ("order=fifo", PURGED, PURGED_REPORT),
    ("order=lifo", PURGED, PURGED_REPORT),
    ("order=fifo", TWO_SESSIONS, FIRST_BEFORE),
    ("order=lifo", TWO_SESSIONS, SECOND_BEFORE),
    ("order=fifo", BARRIERS, IN_PHASES),
];

// An import of one session goes on while another purges.
const PURGED: &str =
    "CREATE TABLE t (a INT);\nIMPORT INTO t LINES 2;\n1\n2\nBARRIER;\nSESSION a;\nIMPORT INTO t LINES 1;\n5\nSELECT COUNT(*) FROM t;\nSESSION b;\nPURGE CHUNK 1 OF t;\n";

const PURGED_REPORT: &str =
    "session main\n1 ok @1 create t\n2 ok @2 import t chunk 1 rows 2\nsession a\n1 ok @4 import t chunk 2 rows 1\n2 rows @4 1\n1\nsession b\n1 ok @3 purge t chunk 1\nhistory 4\n1 main 1 create t\n2 main 2 import t chunk 1 rows 2\n3 b 1 purge t chunk 1\n4 a 1 import t chunk 2 rows 1\n";

// Each of two sessions imports a row; the one that is picked before commits before.
const TWO_SESSIONS: &str =
    "CREATE TABLE t (a INT);\nBARRIER;\nSESSION a;\nIMPORT INTO t LINES 1;\n1\nSESSION b;\nIMPORT INTO t LINES 1;\n2\n";

const FIRST_BEFORE: &str =
    "session main\n1 ok @1 create t\nsession a\n1 ok @2 import t chunk 1 rows 1\nsession b\n1 ok @3 import t chunk 2 rows 1\nhistory 3\n1 main 1 create t\n2 a 1 import t chunk 1 rows 1\n3 b 1 import t chunk 2 rows 1\n";

const SECOND_BEFORE: &str =
    "session main\n1 ok @1 create t\nsession a\n1 ok @3 import t chunk 2 rows 1\nsession b\n1 ok @2 import t chunk 1 rows 1\nhistory 3\n1 main 1 create t\n2 b 1 import t chunk 1 rows 1\n3 a 1 import t chunk 2 rows 1\n";

// No statement of a later phase begins before one of an earlier has its reply, and `main` isn't printed, since it has no reply.
const BARRIERS: &str =
    "SESSION b;\nCREATE TABLE t (a INT);\nBARRIER;\nBARRIER;\nSESSION a;\nSELECT a FROM t;\nSESSION b;\nCREATE TABLE u (a INT);\nBARRIER;\n";

const IN_PHASES: &str =
    "session b\n1 ok @1 create t\n2 ok @2 create u\nsession a\n1 rows @2 0\nhistory 2\n1 b 1 create t\n2 b 2 create u\n";
