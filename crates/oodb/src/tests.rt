// Runs over sources, sinks and devices that fail. Scripts that need none of their own are cases of `.ci/cases`.
ghost use Rattle.std.specs.Prelude.{◌<◌};

mod devices;
mod orders;
mod pieces;

use crate::memory::run_in_memory;
use crate::run::run;
use crate::status::Status;
use hv_dev::Device;
use hv_io::{MemSink, MemSource};
use hv_row::Bytes;
use std::alloc::{AllocError, Global};
use std::process::Abort;
use std::test::Fail;

// How a run ended, and what its sink took.
#[derive(Drop)]
struct Taken {
    status: Status,
    taken: Vec<u8>,
}

// Runs the script of a source over a device.
fn ran<D: Device>(
    alloc: Global,
    source: MemSource,
    out: MemSink,
    device: &mut D,
) -> Result<Taken, AllocError> {
    let words = [Bytes::from_slice(alloc, b"run")?];
    Ok(ran_by(alloc, &words, source, out, device))
}

// The same by these words.
fn ran_by<D: Device>(
    alloc: Global,
    words: &[Bytes],
    mut source: MemSource,
    mut out: MemSink,
    device: &mut D,
) -> Taken {
    let status = run(alloc, words, &mut source, &mut out, device);
    Taken {
        status,
        taken: out.into_vec(),
    }
}

// A source of a script, which gives so many bytes at a call, and fails at one if it is named.
fn source_of(
    alloc: Global,
    script: &[u8],
    give: usize,
    fail: Option<u32>,
) -> Result<MemSource, AllocError>
    requires { 0 < give }
{
    Ok(MemSource::new(Vec::from_slice(alloc, script)?, give, fail))
}

// A run ended so and wrote this.
fn meets(rt: &impl Abort, got: &Taken, status: Status, written: &[u8]) {
    assert!(rt; got.status == status);
    assert!(rt; got.taken.as_slice() == written);
}

const FIRST: &str =
    "CREATE TABLE t (a INT, b TEXT);\nIMPORT INTO t LINES 1;\n1,a\nSELECT * FROM t;\n";

// The report on it.
const REPORT: &str =
    "session main\n1 ok @1 create t\n2 ok @2 import t chunk 1 rows 1\n3 rows @2 1\n1|'a'\nhistory 2\n1 main 1 create t\n2 main 2 import t chunk 1 rows 1\n";

// A script whose query has an order.
const ORDERED: &str =
    "CREATE TABLE t (a INT, b TEXT);\nIMPORT INTO t LINES 2;\n2,b\n1,a\nSELECT * FROM t ORDER BY a;\n";

#[test]
fn bytes_in_memory_are_answered(rt: HostRuntime) -> Result<(), Fail> {
    let cases = [
        (
            "CREATE TABLE t (a INT);\nSELECT * FROM t;\n",
            Status::Fine,
            "session main\n1 ok @1 create t\n2 rows @1 0\nhistory 1\n1 main 1 create t\n",
        ),
        (";; 'a;b", Status::Script, "fault unended 3\n"),
    ];
    for (script, status, written) in cases {
        let done = in_memory(rt.alloc(), script)?;
        meets(&rt, &done, status, written.as_bytes());
    }
    Ok(())
}

fn in_memory(alloc: Global, script: &str) -> Result<Taken, AllocError> {
    let words = [Bytes::from_slice(alloc, b"run")?];
    let done = run_in_memory(alloc, &words, Vec::from_slice(alloc, script.as_bytes())?)?;
    Ok(Taken {
        status: done.status,
        taken: done.report,
    })
}

#[test]
fn statuses_have_their_numbers(rt: HostRuntime) {
    let statuses = [
        Status::Fine,
        Status::SomeFailed,
        Status::Words,
        Status::Script,
        Status::SourceFault,
        Status::SinkFault,
        Status::Memory,
    ];
    for (number, status) in (0_u8..).zip(statuses) {
        assert!(rt; status.code() == number);
    }
}
