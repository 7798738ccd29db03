// The turns of a job: 408 rows of one number fill a page, which is written when the next row comes.
ghost use Rattle.std.specs.Prelude.{◌≡◌, ◌≤◌, [], length, Some, IfOk, OnOk};
ghost use Rattle.hv_import.specs.Rows.{AreShort};

use crate::made::schema_of;
use hv_chunk::JobTurn;
use hv_dev::{CleanDevice, Device, Fail as FailingCall, FailKind, MemDevice, Order, PageSink};
use hv_import::{ImportJob, rows_of};
use hv_row::PackedRows;
use hv_view::ChunkView;
use std::alloc::Global;
use std::test::Fail;

// So many rows of one number, from 0 on.
fn rows_in(alloc: Global, count: u32) -> Result<PackedRows, Fail>
    ensures few { IfOk result (λ rows. length rows.rows ≤ 1000000) }
    ensures short { IfOk result (λ rows. AreShort rows.schema rows.rows) }
{
    let mut text = String::new(alloc);
    for number in 0..count {
        writeln!(text, "{number}")?;
    }
    let schema = schema_of(alloc, "i")?;
    match rows_of(alloc, text.as_bytes(), &schema) {
        Ok(rows) => Ok(rows),
        Err(_) => Err(Fail::from("no rows")),
    }
}

// How a job ended.
#[derive(Clone, Copy, Debug, PartialEq, Eq)]
enum End {
    // A chunk of so many rows on so many pages.
    Made(u32, u32),
    WriteFault,
    Other,
}

// Turns a job of so many rows to its end: how many turns went on, and how it ended.
fn turns<P: PageSink>(alloc: Global, port: &mut P, count: u32) -> Result<(u32, End), Fail>
    requires { P.written port.old ≡ Some [] }
    ensures { OnOk result (P.written port.new ≡ Some []) }
{
    let mut job = ImportJob::new(alloc, rows_in(alloc, count)?)?;
    // A turn that goes on pushes a row.
    for went in 0..=count {
        match job.turn(alloc, port) {
            JobTurn::Went => {}
            JobTurn::Made(chunk) => {
                return Ok((went, End::Made(chunk.row_count(), chunk.heap_pages())));
            }
            JobTurn::WriteFault => return Ok((went, End::WriteFault)),
            _ => return Ok((went, End::Other)),
        }
    }
    Err(Fail::from("turns without an end"))
}

// How many rows, how many turns go on, and how many pages the chunk has.
const TURNS: [(u32, u32, u32); 8] = [
    (0, 0, 0),
    (1, 1, 1),
    (408, 1, 1),
    (409, 1, 2),
    (410, 2, 2),
    (816, 2, 2),
    (817, 2, 3),
    (10_000, 25, 25),
];

#[test]
fn writes_a_page_a_turn(rt: HostRuntime) -> Result<(), Fail> {
    let alloc = rt.alloc();
    for (count, went, pages) in TURNS {
        let mut device = CleanDevice::new();
        let mut port = device.port(alloc, Order::Fifo, 1)?;
        assert!(rt;
            turns(alloc, &mut port, count)? == (went, End::Made(count, pages)),
            "{count}"
        );
    }
    Ok(())
}

// A device whose port 0 fails at one call.
fn failing(alloc: Global, kind: FailKind, nth: u32) -> Result<MemDevice, Fail> {
    let mut fails = Vec::new(alloc);
    fails.push(FailingCall { port: 0, kind, nth })?;
    Ok(MemDevice::new(fails))
}

// How many rows, which call fails, and how many turns went on before: so each page is written in its turn.
const FAULTS: [(u32, FailKind, u32, u32); 7] = [
    (0, FailKind::Seal, 1, 0),
    (1, FailKind::Write, 1, 1),
    (409, FailKind::Write, 1, 0),
    (409, FailKind::Write, 2, 1),
    (409, FailKind::Seal, 1, 1),
    (1_000, FailKind::Write, 2, 1),
    (1_000, FailKind::Write, 3, 3),
];

// Whether so many rows fail at that call, and then are made on the same port.
fn fails_once<P: PageSink>(alloc: Global, port: &mut P, count: u32, went: u32) -> Result<bool, Fail>
    requires { P.written port.old ≡ Some [] }
{
    if turns(alloc, port, count)? != (went, End::WriteFault) {
        return Ok(false);
    }
    match turns(alloc, port, count)? {
        (_, End::Made(rows, _)) => Ok(rows == count),
        _ => Ok(false),
    }
}

#[test]
fn fails_at_a_write(rt: HostRuntime) -> Result<(), Fail> {
    let alloc = rt.alloc();
    for (count, kind, nth, went) in FAULTS {
        let mut device = failing(alloc, kind, nth)?;
        let mut port = device.port(alloc, Order::Fifo, 1)?;
        assert!(rt; fails_once(alloc, &mut port, count, went)?, "{count} {nth}");
    }
    Ok(())
}
