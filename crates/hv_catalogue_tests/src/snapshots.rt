// What a query takes of a catalogue.
ghost use Rattle.std.specs.Prelude.{◌≡◌, [], Some};

use crate::asked::{Step, ask, name_of};
use hv_catalogue::{Catalogue, SnapFault};
use hv_chunk::Chunk;
use hv_dev::{CleanDevice, Device, Order, PageSink};
use hv_model::TableHead;
use hv_row::{Bytes, Copied};
use hv_view::{ChunkView, HeldTable};
use std::alloc::Global;
use std::process::Abort;

// Two tables, whose chunks number on.
const STEPS: [Step; 6] = [
    Step::Create(b't'),
    Step::Create(b'u'),
    Step::Import(b't', 1),
    Step::Import(b'u', 2),
    Step::Import(b't', 3),
    Step::Purge(b't', 1),
];

// Each is carried out.
fn ask_each<P: PageSink>(
    rt: &impl Abort,
    alloc: Global,
    port: &mut P,
    catalogue: &mut Catalogue<Chunk<P::File>>,
    steps: &[Step],
)
    requires { P.written port.old ≡ Some [] }
    ensures { P.written port.new ≡ Some [] }
{
    for step in steps {
        let told = ask(rt, alloc, port, catalogue, b'm', 1, *step);
        assert!(rt; told.is_ok());
    }
}

// Whether a head is that of a table of this number and name, with one column.
fn is_head(head: &TableHead, number: u32, name: u8) -> bool {
    head.number == number
        && head.name.as_slice() == [name].as_slice()
        && head.schema.columns().len() == 1
}

// Whether a table has one chunk, of this number and of so many rows.
fn has_one<V: ChunkView>(table: &HeldTable<V>, number: u32, rows: u32) -> bool {
    let Some(chunk) = table.chunks.get(0) else {
        return false;
    };
    table.chunks.len() == 1 && chunk.chunk == number && chunk.view.get().row_count() == rows
}

#[test]
fn takes_tables_in_the_order_asked(rt: HostRuntime) {
    let alloc = rt.alloc();
    let mut device = CleanDevice::new();
    let mut port = device.port(alloc, Order::Fifo, 1).expect(&rt, "a port");
    let mut catalogue = Catalogue::new(alloc, 8).expect(&rt, "a catalogue");
    ask_each(&rt, alloc, &mut port, &mut catalogue, &STEPS);
    let names = [name_of(&rt, alloc, b'u'), name_of(&rt, alloc, b't')];
    let taken = catalogue.snapshot(alloc, &names).expect(&rt, "a snapshot");
    let later = ask(
        &rt,
        alloc,
        &mut port,
        &mut catalogue,
        b'm',
        2,
        Step::Purge(b'u', 2),
    );
    assert!(rt; later == Ok(7));
    assert!(rt; taken.at == 6 && taken.heads.len() == 2);
    assert!(rt; is_head(taken.heads.get(0).expect(&rt, "a head"), 1, b'u'));
    assert!(rt; is_head(taken.heads.get(1).expect(&rt, "a head"), 0, b't'));
    let view = taken.view.copy(alloc).expect(&rt, "a copy");
    assert!(rt; view.tables.len() == 2);
    assert!(rt; has_one(view.tables.get(0).expect(&rt, "a table"), 2, 2));
    assert!(rt; has_one(view.tables.get(1).expect(&rt, "a table"), 3, 3));
}

#[test]
fn tells_the_first_name_without_a_table(rt: HostRuntime) {
    let alloc = rt.alloc();
    let mut device = CleanDevice::new();
    let mut port = device.port(alloc, Order::Fifo, 1).expect(&rt, "a port");
    let mut catalogue = Catalogue::new(alloc, 8).expect(&rt, "a catalogue");
    let told = ask(
        &rt,
        alloc,
        &mut port,
        &mut catalogue,
        b'm',
        1,
        Step::Create(b't'),
    );
    assert!(rt; told == Ok(1));
    let none: [Bytes; 0] = [];
    assert!(rt;
        catalogue
            .snapshot(alloc, &none)
            .expect(&rt, "no table")
            .heads
            .is_empty()
    );
    let names = [
        name_of(&rt, alloc, b't'),
        name_of(&rt, alloc, b'v'),
        name_of(&rt, alloc, b'u'),
    ];
    match catalogue.snapshot(alloc, &names) {
        Err(SnapFault::NoTable { place, at }) => assert!(rt; place == 1 && at == 1),
        _ => rt.panic("a snapshot of no table"),
    }
}
