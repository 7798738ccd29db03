// The limits of a catalogue, and which refusal is told first where several stand.
ghost use Rattle.std.specs.Prelude.{◌≡◌, [], Some};

use crate::asked::{Step, ask};
use hv_catalogue::{ApplyFault, Catalogue, MAX_CHUNKS, MAX_ENTRIES, MAX_TABLES};
use hv_chunk::Chunk;
use hv_dev::{CleanDevice, Device, Order, PageSink};
use hv_model::Refusal;
use std::alloc::Global;
use std::process::Abort;

// With 64 tables: a table of a name that stands, and of another.
const AFTER_TABLES: [(Step, Refusal); 2] = [
    (Step::Create(0), Refusal::TableExists),
    (Step::Create(64), Refusal::TooManyTables),
];

// With 1,024 chunks in table t: one more.
const AFTER_CHUNKS: [(Step, Refusal); 1] = [(Step::Import(b't', 0), Refusal::TooManyChunks)];

// With these and a history of 65,536 entries: each command, and its first refusal.
const AFTER_ENTRIES: [(Step, Refusal); 6] = [
    (Step::Create(b't'), Refusal::TableExists),
    (Step::Create(b'v'), Refusal::HistoryFull),
    (Step::Import(b't', 0), Refusal::TooManyChunks),
    (Step::Import(b'u', 0), Refusal::HistoryFull),
    (Step::Purge(b'u', 1), Refusal::NoChunk { chunk: 1 }),
    (Step::Purge(b't', 1), Refusal::HistoryFull),
];

// Each is refused for its cause, at this length of the history.
fn refuses<P: PageSink>(
    rt: &impl Abort,
    alloc: Global,
    port: &mut P,
    catalogue: &mut Catalogue<Chunk<P::File>>,
    at: u32,
    cases: &[(Step, Refusal)],
)
    requires { P.written port.old ≡ Some [] }
    ensures { P.written port.new ≡ Some [] }
{
    for case in cases {
        let (step, cause) = *case;
        let told = ask(rt, alloc, port, catalogue, b'm', 1, step);
        assert!(rt; told == Err(ApplyFault::Refused { at, cause }), "{step:?}");
    }
}

fn fill_tables<P: PageSink>(
    rt: &impl Abort,
    alloc: Global,
    port: &mut P,
    catalogue: &mut Catalogue<Chunk<P::File>>,
)
    requires { P.written port.old ≡ Some [] }
    ensures { P.written port.new ≡ Some [] }
{
    for table in 0..64u8 {
        let told = ask(rt, alloc, port, catalogue, b'm', 1, Step::Create(table));
        assert!(rt; told == Ok(u32::from(table) + 1));
    }
}

#[test]
fn has_at_most_64_tables(rt: HostRuntime) {
    let alloc = rt.alloc();
    let mut device = CleanDevice::new();
    let mut port = device.port(alloc, Order::Fifo, 1).expect(&rt, "a port");
    let mut catalogue = Catalogue::new(alloc, 8).expect(&rt, "a catalogue");
    assert!(rt; MAX_TABLES == 64);
    fill_tables(&rt, alloc, &mut port, &mut catalogue);
    refuses(&rt, alloc, &mut port, &mut catalogue, 64, &AFTER_TABLES);
}

// Two tables, t and u, and 1,024 chunks in t.
fn fill_chunks<P: PageSink>(
    rt: &impl Abort,
    alloc: Global,
    port: &mut P,
    catalogue: &mut Catalogue<Chunk<P::File>>,
)
    requires { P.written port.old ≡ Some [] }
    ensures { P.written port.new ≡ Some [] }
{
    let first = ask(rt, alloc, port, catalogue, b'm', 1, Step::Create(b't'));
    let second = ask(rt, alloc, port, catalogue, b'm', 2, Step::Create(b'u'));
    assert!(rt; first == Ok(1) && second == Ok(2));
    for chunk in 0..1_024u32 {
        let told = ask(rt, alloc, port, catalogue, b'm', 3, Step::Import(b't', 0));
        assert!(rt; told == Ok(chunk + 3));
    }
}

// An import into table u and its purge, over and over: 1,026 entries and two times 32,255 are 65,536.
fn fill_history<P: PageSink>(
    rt: &impl Abort,
    alloc: Global,
    port: &mut P,
    catalogue: &mut Catalogue<Chunk<P::File>>,
)
    requires { P.written port.old ≡ Some [] }
    ensures { P.written port.new ≡ Some [] }
{
    for pair in 0..32_255u32 {
        let told = ask(rt, alloc, port, catalogue, b'm', 4, Step::Import(b'u', 0));
        assert!(rt; told == Ok(1_027 + 2 * pair));
        let purge = Step::Purge(b'u', u64::from(pair) + 1_025);
        let gone = ask(rt, alloc, port, catalogue, b'm', 5, purge);
        assert!(rt; gone == Ok(1_028 + 2 * pair));
    }
}

#[test]
fn has_at_most_1024_chunks_a_table_and_65536_entries(rt: HostRuntime) {
    let alloc = rt.alloc();
    let mut device = CleanDevice::new();
    let mut port = device.port(alloc, Order::Fifo, 1).expect(&rt, "a port");
    let mut catalogue = Catalogue::new(alloc, MAX_ENTRIES).expect(&rt, "a catalogue");
    assert!(rt; MAX_CHUNKS == 1_024 && MAX_ENTRIES == 65_536);
    fill_chunks(&rt, alloc, &mut port, &mut catalogue);
    refuses(&rt, alloc, &mut port, &mut catalogue, 1_026, &AFTER_CHUNKS);
    fill_history(&rt, alloc, &mut port, &mut catalogue);
    refuses(
        &rt,
        alloc,
        &mut port,
        &mut catalogue,
        65_536,
        &AFTER_ENTRIES,
    );
}
